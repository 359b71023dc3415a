// Writing the 42 bytes of a per-peer header (RFC 7854, section 4.2).
#![tactic(auto)]

ghost use Rattle.std.specs.Prelude.{◌≡◌, true, ◌≤◌, eqb, length};
ghost use Rattle.std.proofs.lemmas.List.Edits.{sets};
ghost use Rattle.models.specs.Address.{same_address};
ghost use Rattle.writing.specs.Write.{Wrote};
ghost use Rattle.per_peer_header.specs.Shown.{shown_address, shown_asn};
ghost use Rattle.per_peer_header.specs.Read.{address_field, as_field};
ghost use Rattle.per_peer_header_writer.specs.Write.{writable, bytes_of};

use models::{AsnLength, IpAddr};
use numbers_writer::PutNumber;
use per_peer_header::PER_PEER_HEADER;
use per_peer_record::BmpPerPeerHeader;
use per_peer_type::PerPeerFlags;
use wire::Refusal;

// Writes the header to the front of the output.
pub fn write_per_peer_header(header: BmpPerPeerHeader, out: &mut [u8]) -> Result<usize, Refusal>
    ensures { Wrote (writable header) (bytes_of header) out.old result out.new }
{
    let length = writing::write_answer(is_writable(header), PER_PEER_HEADER, out.len())?;
    put_header(header, out);
    Ok(length)
}

fn is_writable(header: BmpPerPeerHeader) -> bool
    ensures { result ≡ writable header }
{
    let kind = header.peer_type.number();
    let flags = header.peer_flags;
    address_fits(kind, flags, header.peer_ip)
        && asn_fits(kind, flags, header.peer_asn.0)
        && times::is_timestamp(header.timestamp, header.seconds, header.microseconds)
}

// Whether a reader shows this address again, once its octets are written.
fn address_fits(kind: u8, flags: PerPeerFlags, address: IpAddr) -> bool
    ensures { result ≡ same_address (shown_address (address_field kind flags.0 address.octets)) address }
{
    if kind == per_peer_type::LOCAL_RIB {
        return IpAddr::unspecified().equals(address);
    }
    addresses::shown_ip(flags.address_family(), address.octets).equals(address)
}

// The number of a Loc-RIB's AS has all four bytes, whatever its flags hold.
fn asn_fits(kind: u8, flags: PerPeerFlags, asn: u32) -> bool
    ensures { result ≡ eqb (shown_asn (as_field kind flags.0 asn)) asn }
{
    kind == per_peer_type::LOCAL_RIB
        || asn < 65_536
        || matches!(flags.asn_length(), AsnLength::Bits32)
}

// In a writable header the octets that are skipped on reading are zero, so all sixteen are put as they are.
fn put_header(header: BmpPerPeerHeader, out: &mut [u8])
    requires header_value { writable header ≡ true }
    requires in_bounds { 42 ≤ length out.old }
    ensures { out.new ≡ sets out.old 0 (bytes_of header) }
{
    header.peer_type.number().put(out, 0);
    header.peer_flags.0.put(out, 1);
    header.peer_distinguisher.0.put(out, 2);
    writing::put_bytes(out, 10, &header.peer_ip.octets);
    header.peer_asn.0.put(out, 26);
    header.peer_bgp_id.0.put(out, 30);
    header.seconds.put(out, 34);
    header.microseconds.put(out, 38);
}

// Reading the 42 bytes of a per-peer header (RFC 7854, section 4.2).
#![tactic(auto)]

ghost use Rattle.std.specs.Prelude.{◌≡◌, not, ◌&&◌, ◌≤◌, ◌+◌, eqb, length, take, drop};
ghost use Rattle.wire.specs.Bytes.{pick};
ghost use Rattle.layout.specs.Layout.{cut_in};
ghost use Rattle.per_peer_header.specs.Grammar.{widths};
ghost use Rattle.per_peer_header.specs.Warnings.{zero_filled, warnings_of};
ghost use Rattle.per_peer_header.specs.Shown.{shown_address, shown_asn, answer_of};
ghost use Rattle.per_peer_header.specs.Read.{address_field, as_field, parts_of, read_per_peer_header};

use models::{Asn, AsnLength, BgpIdentifier, IpAddr, PeerDistinguisher};
use numbers::WireNumber;
use per_peer_record::BmpPerPeerHeader;
use per_peer_type::PerPeerFlags;
use wire::Refusal;

// The header, the place after it and the warnings.
#[derive(Clone, Copy)]
pub struct PerPeerHeaderAnswer {
    pub stop: usize,
    pub warnings: u32,
    pub header: BmpPerPeerHeader,
}

// How many bytes the header takes.
pub const PER_PEER_HEADER: usize = 42;

// Reads the header at the front of the bytes. The type is judged before the length, so that an unknown one is named even where more is
// missing; where there is no byte at all, read_at gives 0 and the length refuses.
pub fn parse_per_peer_header(s: &[u8]) -> Result<PerPeerHeaderAnswer, Refusal>
    ensures { result ≡ read_per_peer_header s.now }
{
    if wire::LIMIT < s.len() {
        return Err(wire::refusal_at(wire::TOO_LONG, 0));
    }
    if per_peer_type::LOCAL_RIB < u8::read_at(s, 0) {
        return Err(wire::refusal_at(wire::UNKNOWN_KIND, 0));
    }
    if s.len() < PER_PEER_HEADER {
        return Err(cut(s.len()));
    }
    Ok(read_header(s))
}

// An address of 16 bytes is one field, and so is an AS of 4.
fn cut(there: usize) -> Refusal
    ensures { result ≡ cut_in widths 0 there }
{
    let widths = [1usize, 1, 8, 16, 4, 4, 4, 4];
    layout::cut_in(&widths, 0, there)
}

fn read_header(s: &[u8]) -> PerPeerHeaderAnswer
    requires { 42 ≤ length s.now }
    ensures { result ≡ answer_of (parts_of s.now) }
{
    let kind = u8::read_at(s, 0);
    let flags = PerPeerFlags(u8::read_at(s, 1));
    let distinguisher = u64::read_at(s, 2);
    let address = addresses::sixteen_at(s, 10);
    let id = u32::read_at(s, 30);
    let seconds = u32::read_at(s, 34);
    let microseconds = u32::read_at(s, 38);
    let header = BmpPerPeerHeader {
        peer_type: per_peer_type::type_of(kind),
        peer_flags: flags,
        peer_distinguisher: PeerDistinguisher(distinguisher),
        peer_ip: shown_address(kind, flags, address),
        peer_asn: Asn(shown_asn(kind, flags, u32::read_at(s, 26))),
        peer_bgp_id: BgpIdentifier(id),
        timestamp: times::timestamp(seconds, microseconds),
        seconds,
        microseconds,
    };
    PerPeerHeaderAnswer {
        stop: PER_PEER_HEADER,
        warnings: warnings_of(s, kind, id, distinguisher),
        header,
    }
}

// The address that its sixteen bytes show, by type and flags: of a Loc-RIB IPv4 zero, whatever they hold.
pub fn shown_address(kind: u8, flags: PerPeerFlags, octets: [u8; 16]) -> IpAddr
    ensures { result ≡ shown_address (address_field kind flags.0 octets) }
{
    if kind == per_peer_type::LOCAL_RIB {
        return IpAddr::unspecified();
    }
    addresses::shown_ip(flags.address_family(), octets)
}

// The AS that the number of its four bytes shows, by type and flags: where it has 16 bits, their last two alone.
pub fn shown_asn(kind: u8, flags: PerPeerFlags, number: u32) -> u32
    ensures { result ≡ shown_asn (as_field kind flags.0 number) }
{
    if kind == per_peer_type::LOCAL_RIB {
        return number;
    }
    match flags.asn_length() {
        AsnLength::Bits16 => number % 65_536,
        AsnLength::Bits32 => number,
    }
}

fn warnings_of(s: &[u8], kind: u8, id: u32, distinguisher: u64) -> u32
    requires { 42 ≤ length s.now }
    ensures { result ≡ warnings_of kind (take 16 (drop 10 s.now)) id distinguisher }
{
    if kind != per_peer_type::LOCAL_RIB {
        return 0;
    }
    word_of(is_zero_filled(s), lacks_router_id(id, distinguisher))
}

// Whether the sixteen octets of the address are zero, as two numbers, so that no octet of it is looked at alone. `==` with an array of
// zeros is slower: the compiler takes the array apart that is shown.
#[tactic(auto, using(crate::proofs::Warned::halves_zero))]
fn is_zero_filled(s: &[u8]) -> bool
    requires { 42 ≤ length s.now }
    ensures { result ≡ zero_filled (take 16 (drop 10 s.now)) }
{
    u64::read_at(s, 10) == 0 && u64::read_at(s, 18) == 0
}

fn lacks_router_id(id: u32, distinguisher: u64) -> bool
    ensures { result ≡ eqb id 0 && not (eqb distinguisher 0) }
{
    id == 0 && distinguisher != 0
}

fn word_of(zero_filled: bool, no_router_id: bool) -> u32
    ensures { result ≡ pick (not zero_filled) 1 0 + pick no_router_id 2 0 }
{
    let stray_address = if zero_filled {
        0
    } else {
        models::STRAY_ADDRESS
    };
    let no_router_id = if no_router_id {
        models::NO_ROUTER_ID
    } else {
        0
    };
    stray_address + no_router_id
}

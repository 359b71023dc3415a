// Writing the OpenBMP header that a collector puts before a raw BMP message.
#![tactic(auto)]

ghost use Rattle.std.specs.Prelude.{◌≡◌, ◌≤◌, ◌<◌, ◌+◌, length};
ghost use Rattle.writing.specs.Write.{put_at, Wrote};
ghost use Rattle.openbmp.specs.Grammar.{flags_of};
ghost use Rattle.openbmp_writer.specs.Write.{family_bit, fixed_fits, ip_fits, view_fits, writable, bytes_of, front_bytes, time_bytes, counted, rest_bytes};

use models::{Afi, IpAddr};
use numbers_writer::PutNumber;
use openbmp::OpenBmpHeader;
use wire::{Refusal, View};

// Writes the header, whose views point into the buffer, to the front of the output. A writable one is never too long: each of its two texts has at most 65,535 bytes. Its octets that are skipped on reading are zero,
// so all sixteen are put as they are.
pub fn write_openbmp_header(
    header: OpenBmpHeader,
    buffer: &[u8],
    out: &mut [u8],
) -> Result<usize, Refusal>
    ensures { Wrote (writable header (length buffer.now)) (bytes_of header buffer.now) out.old result out.new }
{
    if !is_writable(header, buffer.len()) {
        return writing::write_answer(false, 0, out.len());
    }
    let admin_id = header.admin_id;
    let router_group = header.router_group;
    let length = 78 + admin_id.length + router_group.length;
    let written = writing::write_answer(true, length, out.len())?;
    let router_ip = header.router_ip;
    put_front(
        header.header_len,
        header.msg_len,
        flags_of(router_ip.afi),
        out,
    );
    put_time(header.seconds, header.microseconds, out);
    put_rest(
        router_ip.octets,
        admin_id.part(buffer),
        router_group.part(buffer),
        out,
    );
    Ok(written)
}

fn is_writable(header: OpenBmpHeader, buffer_length: usize) -> bool
    ensures { result ≡ writable header buffer_length }
{
    has_fixed_values(
        header.major_version,
        header.minor_version,
        header.object_type,
    ) && times::is_timestamp(header.timestamp, header.seconds, header.microseconds)
        && ip_fits(header.router_ip)
        && view_fits(header.admin_id, buffer_length)
        && view_fits(header.router_group, buffer_length)
}

fn has_fixed_values(major: u8, minor: u8, object_type: u8) -> bool
    ensures { result ≡ fixed_fits major minor object_type }
{
    major == openbmp::MAJOR_VERSION
        && minor == openbmp::MINOR_VERSION
        && object_type == openbmp::RAW_BMP
}

fn ip_fits(address: IpAddr) -> bool
    ensures { result ≡ ip_fits address }
{
    addresses::router_ip(address.afi, address.octets).equals(address)
}

// The length of a view has two bytes on the wire.
fn view_fits(view: View, buffer_length: usize) -> bool
    ensures { result ≡ view_fits view buffer_length }
{
    view.length <= 65_535 && view.is_inside(buffer_length)
}

// Versions and object type are the ones that every writable header has.
#[tactic(auto, using(crate::proofs::Written::put_front))]
fn put_front(header_len: u16, msg_len: u32, flags: u8, out: &mut [u8])
    requires { 14 ≤ length out.old }
    ensures { out.new ≡ put_at out.old 0 (front_bytes header_len msg_len flags) }
{
    openbmp::MAGIC_NUMBER.put(out, 0);
    openbmp::MAJOR_VERSION.put(out, 4);
    openbmp::MINOR_VERSION.put(out, 5);
    header_len.put(out, 6);
    msg_len.put(out, 8);
    flags.put(out, 12);
    openbmp::RAW_BMP.put(out, 13);
}

fn flags_of(afi: Afi) -> u8
    ensures { result ≡ flags_of 1 (family_bit afi) 0 }
{
    match afi {
        Afi::Ipv4 => openbmp::IS_ROUTER_MSG,
        Afi::Ipv6 => openbmp::IS_ROUTER_MSG + openbmp::IS_ROUTER_IPV6,
    }
}

#[tactic(auto, using(crate::proofs::Written::put_time))]
fn put_time(seconds: u32, microseconds: u32, out: &mut [u8])
    requires { 38 ≤ length out.old }
    ensures { out.new ≡ put_at out.old 14 (time_bytes seconds microseconds) }
{
    let no_hash = [0u8; 16];
    seconds.put(out, 14);
    microseconds.put(out, 18);
    writing::put_bytes(out, 22, &no_hash);
}

fn put_rest(octets: [u8; 16], admin: &[u8], group: &[u8], out: &mut [u8])
    requires admin_len_bound { length admin.now < 65536 }
    requires group_len_bound { length group.now < 65536 }
    requires group_in_bounds { 78 + length admin.now + length group.now ≤ length out.old }
    ensures { out.new ≡ put_at out.old 38 (rest_bytes octets admin.now group.now) }
{
    let no_hash = [0u8; 16];
    let a = admin.len();
    let g = group.len();
    put_counted(admin, 38, out);
    writing::put_bytes(out, 40 + a, &no_hash);
    writing::put_bytes(out, 56 + a, &octets);
    put_counted(group, 72 + a, out);
    1u32.put(out, 74 + a + g);
}

#[tactic(auto, using(crate::proofs::Written::put_counted))]
fn put_counted(bytes: &[u8], at: usize, out: &mut [u8])
    requires bytes_len_bound { length bytes.now < 65536 }
    requires bytes_in_bounds { at + (2 + length bytes.now) ≤ length out.old }
    ensures { out.new ≡ put_at out.old at (counted bytes.now) }
{
    (bytes.len() as u16).put(out, at);
    writing::put_bytes(out, at + 2, bytes);
}

// The OpenBMP header that a collector puts before a raw BMP message: its record and its reader.
#![tactic(auto)]

ghost use Rattle.std.specs.Prelude.{◌≡◌, ◌≤◌, ◌+◌, length};
ghost use Rattle.layout.specs.Layout.{cut_in};
ghost use Rattle.openbmp.specs.Grammar.{widths};
ghost use Rattle.openbmp.specs.Shown.{answer_of};
ghost use Rattle.openbmp.specs.Read.{family_of, parts_of, after_row_count, after_group_length, after_admin_length, after_type, after_flags, after_versions, after_magic, read_open_bmp_header};

use models::{Afi, IpAddr};
use numbers::WireNumber;
use wire::{Refusal, View};

// Beside the time stand the words that it comes from.
#[derive(Clone, Copy)]
pub struct OpenBmpHeader {
    pub major_version: u8,
    pub minor_version: u8,
    pub header_len: u16,
    pub msg_len: u32,
    pub object_type: u8,
    pub timestamp: f64,
    pub seconds: u32,
    pub microseconds: u32,
    pub admin_id: View,
    pub router_ip: IpAddr,
    pub router_group: View,
}

// The header and the place after it.
#[derive(Clone, Copy)]
pub struct OpenBmpAnswer {
    pub stop: usize,
    pub header: OpenBmpHeader,
}

// The letters OBMP.
pub const MAGIC_NUMBER: u32 = 0x4F42_4D50;

// The versions of the header that are read.
pub const MAJOR_VERSION: u8 = 1;

pub const MINOR_VERSION: u8 = 7;

// The object type of a raw BMP message, the one that is supported.
pub const RAW_BMP: u8 = 12;

// The flag of a message that came from a router, and that of a router address of IPv6.
pub const IS_ROUTER_MSG: u8 = 0b1000_0000;

pub const IS_ROUTER_IPV6: u8 = 0b0100_0000;

// Reads the header at the front of the bytes. Each stage judges the number that it is given, and asks for the bytes of the next one that
// is judged or counts.
pub fn parse_openbmp_header(s: &[u8]) -> Result<OpenBmpAnswer, Refusal>
    ensures { result ≡ read_open_bmp_header s.now }
{
    if wire::LIMIT < s.len() {
        return Err(wire::refusal_at(wire::TOO_LONG, 0));
    }
    if s.len() < 4 {
        return Err(cut(s.len(), 0, 0));
    }
    after_magic(s, u32::read_at(s, 0))
}

#[tactic(auto, unfolding(crate::specs::Read::after_magic))]
fn after_magic(s: &[u8], magic: u32) -> Result<OpenBmpAnswer, Refusal>
    ensures { result ≡ after_magic s.now magic }
{
    if magic != MAGIC_NUMBER {
        return Err(wire::refusal_at(wire::BAD_OPEN_BMP, 0));
    }
    if s.len() < 6 {
        return Err(cut(s.len(), 0, 0));
    }
    after_versions(s, u8::read_at(s, 4), u8::read_at(s, 5))
}

// The versions are one pair, and its place is that of the first.
#[tactic(auto, unfolding(crate::specs::Read::after_versions))]
fn after_versions(s: &[u8], major: u8, minor: u8) -> Result<OpenBmpAnswer, Refusal>
    ensures { result ≡ after_versions s.now major minor }
{
    if major != MAJOR_VERSION || minor != MINOR_VERSION {
        return Err(wire::refusal_at(wire::BAD_OPEN_BMP, 4));
    }
    if s.len() < 13 {
        return Err(cut(s.len(), 0, 0));
    }
    after_flags(s, u8::read_at(s, 12))
}

#[tactic(auto, unfolding(crate::specs::Read::after_flags))]
fn after_flags(s: &[u8], flags: u8) -> Result<OpenBmpAnswer, Refusal>
    ensures { result ≡ after_flags s.now flags }
{
    if flags & IS_ROUTER_MSG == 0 {
        return Err(wire::refusal_at(wire::UNSUPPORTED, 12));
    }
    if s.len() < 14 {
        return Err(cut(s.len(), 0, 0));
    }
    after_type(s, u8::read_at(s, 13))
}

#[tactic(auto, unfolding(crate::specs::Read::after_type))]
fn after_type(s: &[u8], object_type: u8) -> Result<OpenBmpAnswer, Refusal>
    ensures { result ≡ after_type s.now object_type }
{
    if object_type != RAW_BMP {
        return Err(wire::refusal_at(wire::UNSUPPORTED, 13));
    }
    if s.len() < 40 {
        return Err(cut(s.len(), 0, 0));
    }
    after_admin_length(s, u16::read_at(s, 38))
}

#[tactic(auto, unfolding(crate::specs::Read::after_admin_length))]
fn after_admin_length(s: &[u8], admin: u16) -> Result<OpenBmpAnswer, Refusal>
    ensures { result ≡ after_admin_length s.now admin }
{
    let a = admin as usize;
    if s.len() < 74 + a {
        return Err(cut(s.len(), a, 0));
    }
    after_group_length(s, admin, u16::read_at(s, 72 + a))
}

#[tactic(auto, unfolding(crate::specs::Read::after_group_length))]
fn after_group_length(s: &[u8], admin: u16, group: u16) -> Result<OpenBmpAnswer, Refusal>
    ensures { result ≡ after_group_length s.now admin group }
{
    let a = admin as usize;
    let g = group as usize;
    if s.len() < 78 + a + g {
        return Err(cut(s.len(), a, g));
    }
    after_row_count(s, admin, group, u32::read_at(s, 74 + a + g))
}

#[tactic(auto, unfolding(crate::specs::Read::after_row_count))]
fn after_row_count(s: &[u8], admin: u16, group: u16, rows: u32) -> Result<OpenBmpAnswer, Refusal>
    requires { 78 + admin + group ≤ length s.now }
    ensures { result ≡ after_row_count s.now admin group rows }
{
    if rows != 1 {
        return Err(wire::refusal_at(wire::BAD_OPEN_BMP, 74 + (admin as usize) + (group as usize)));
    }
    Ok(read_header(s, admin as usize, group as usize))
}

fn read_header(s: &[u8], admin: usize, group: usize) -> OpenBmpAnswer
    requires { 78 + admin + group ≤ length s.now }
    ensures { result ≡ answer_of (parts_of s.now admin group) }
{
    let seconds = u32::read_at(s, 14);
    let microseconds = u32::read_at(s, 18);
    let header = OpenBmpHeader {
        major_version: u8::read_at(s, 4),
        minor_version: u8::read_at(s, 5),
        header_len: u16::read_at(s, 6),
        msg_len: u32::read_at(s, 8),
        object_type: u8::read_at(s, 13),
        timestamp: times::timestamp(seconds, microseconds),
        seconds,
        microseconds,
        admin_id: View {
            place: 40,
            length: admin,
        },
        router_ip: addresses::router_ip(
            family(u8::read_at(s, 12)),
            addresses::sixteen_at(s, 56 + admin),
        ),
        router_group: View {
            place: 74 + admin,
            length: group,
        },
    };
    OpenBmpAnswer {
        stop: 78 + admin + group,
        header,
    }
}

fn family(flags: u8) -> Afi
    ensures { result ≡ family_of flags }
{
    if flags & IS_ROUTER_IPV6 != 0 {
        Afi::Ipv6
    } else {
        Afi::Ipv4
    }
}

// The widths are those of all fields. A length that was not read yet is 0: its field stands behind the one that is cut.
fn cut(there: usize, admin: usize, group: usize) -> Refusal
    ensures { result ≡ cut_in (widths admin group) 0 there }
{
    let widths = [
        4usize, 1, 1, 2, 4, 1, 1, 4, 4, 16, 2, admin, 16, 16, 2, group, 4,
    ];
    layout::cut_in(&widths, 0, there)
}

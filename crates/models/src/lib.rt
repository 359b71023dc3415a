// The values that BMP messages are made of, under the names that bgpkit-parser gives them where it has any, and the warnings.
#![tactic(auto)]

ghost use Rattle.std.specs.Prelude.{◌≡◌};
ghost use Rattle.models.specs.Address.{same_address, unspecified};
ghost use Rattle.models.specs.Warnings.{count_ones};

// An AS number, a BGP identifier and a distinguisher have a type each, so that no call takes one for another.
#[derive(Clone, Copy, PartialEq, Eq, Debug)]
pub struct Asn(pub u32);

#[derive(Clone, Copy, PartialEq, Eq, Debug)]
pub struct BgpIdentifier(pub u32);

#[derive(Clone, Copy, PartialEq, Eq, Debug)]
pub struct PeerDistinguisher(pub u64);

// The family of an address.
#[derive(Clone, Copy, PartialEq, Eq, Debug)]
pub enum Afi {
    Ipv4,
    Ipv6,
}

// How wide the AS numbers are that a peer's messages carry: the A flag of RFC 7854, section 4.2.
#[derive(Clone, Copy, PartialEq, Eq, Debug)]
pub enum AsnLength {
    Bits16,
    Bits32,
}

// The sixteen octets stand as in the field that they come from, and those that the family has no use for are zero: a per-peer
// header has an IPv4 address in the last four (RFC 7854, section 4.2).
#[derive(Clone, Copy, PartialEq, Eq, Debug)]
pub struct IpAddr {
    pub octets: [u8; 16],
    pub afi: Afi,
}

impl IpAddr {
    // What is shown where there is no address, as for a Loc-RIB (RFC 9069, section 5.1).
    pub fn unspecified() -> IpAddr
        ensures { result ≡ unspecified }
    {
        IpAddr {
            octets: [0; 16],
            afi: Afi::Ipv4,
        }
    }

    // Whether family and all sixteen octets are the same.
    pub fn equals(self, other: IpAddr) -> bool
        ensures { result ≡ same_address self other }
    {
        self == other
    }
}

// The five warnings, each a bit of one word (docs/RULES.md, "Warnings"); all are of a Loc-RIB.
//
// Its address is not zero.
pub const STRAY_ADDRESS: u32 = 1;
// Its BGP identifier is zero, and its distinguisher is not.
pub const NO_ROUTER_ID: u32 = 2;
// Its AS numbers are said to have 16 bits.
pub const SHORT_AS: u32 = 4;
// The name of its table is empty or too long.
pub const BAD_TABLE_NAME: u32 = 8;
// The name of its table is not told.
pub const NO_TABLE_NAME: u32 = 16;

// How many warnings a word holds.
pub fn warning_count(warnings: u32) -> u32
    ensures { result ≡ count_ones 32 warnings }
{
    warnings.count_ones()
}

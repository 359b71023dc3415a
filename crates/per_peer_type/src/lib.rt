// The type of a peer and its flags: the first two bytes of a per-peer header (RFC 7854, section 4.2; RFC 8671; RFC 9069).
#![tactic(auto)]

ghost use Rattle.std.specs.Prelude.{◌≡◌};
ghost use Rattle.per_peer_type.specs.Peer.{type_of, kind_of, flag_l, flag_o, flag_f, address_family, asn_length};

use models::{Afi, AsnLength};

// The types of peers, by their numbers from 0 on.
#[derive(Clone, Copy, PartialEq, Eq, Debug)]
pub enum BmpPeerType {
    Global,
    RD,
    Local,
    LocalRib,
}

// The last of the types that are known, and the one whose header is another.
pub const LOCAL_RIB: u8 = 3;

impl BmpPeerType {
    // The number that stands for the type on the wire.
    #[tactic(auto, unfolding(crate::specs::Peer::kind_of))]
    pub fn number(self) -> u8
        ensures { result ≡ kind_of self }
    {
        match self {
            BmpPeerType::Global => 0,
            BmpPeerType::RD => 1,
            BmpPeerType::Local => 2,
            BmpPeerType::LocalRib => LOCAL_RIB,
        }
    }
}

// The name of a type by its number; a number above the last is refused before it is named, and has the last name.
#[tactic(auto, unfolding(crate::specs::Peer::type_of))]
pub fn type_of(kind: u8) -> BmpPeerType
    ensures { result ≡ type_of kind }
{
    match kind {
        0 => BmpPeerType::Global,
        1 => BmpPeerType::RD,
        2 => BmpPeerType::Local,
        _ => BmpPeerType::LocalRib,
    }
}

// The flags as they stand in the header, with the bits that have no meaning. What a bit means depends on the type of the peer: V, L, A
// and O are of types 0 to 2, F is of a Loc-RIB.
#[derive(Clone, Copy, PartialEq, Eq, Debug)]
pub struct PerPeerFlags(pub u8);

const ADDRESS_FAMILY_IPV6: u8 = 0b1000_0000;

const IS_POST_POLICY: u8 = 0b0100_0000;

const AS_SIZE_16BIT: u8 = 0b0010_0000;

const IS_ADJ_RIB_OUT: u8 = 0b0001_0000;

const IS_FILTERED: u8 = 0b1000_0000;

impl PerPeerFlags {
    // The V flag: the family of the peer's address. Of a Loc-RIB the same bit is the F flag.
    pub fn address_family(self) -> Afi
        ensures { result ≡ address_family self.0 }
    {
        if self.0 & ADDRESS_FAMILY_IPV6 != 0 {
            Afi::Ipv6
        } else {
            Afi::Ipv4
        }
    }

    // The L flag: whether the routes are those after the policy.
    pub fn is_post_policy(self) -> bool
        ensures { result ≡ flag_l self.0 }
    {
        self.0 & IS_POST_POLICY != 0
    }

    // The A flag: how wide the AS numbers are.
    pub fn asn_length(self) -> AsnLength
        ensures { result ≡ asn_length self.0 }
    {
        if self.0 & AS_SIZE_16BIT != 0 {
            AsnLength::Bits16
        } else {
            AsnLength::Bits32
        }
    }

    // The O flag: whether the routes are those of the Adj-RIB-Out (RFC 8671, section 4).
    pub fn is_adj_rib_out(self) -> bool
        ensures { result ≡ flag_o self.0 }
    {
        self.0 & IS_ADJ_RIB_OUT != 0
    }

    // The F flag, which speaks of a Loc-RIB, type 3, alone: whether its routes are filtered (RFC 9069, section 4.2).
    pub fn is_filtered(self) -> bool
        ensures { result ≡ flag_f self.0 }
    {
        self.0 & IS_FILTERED != 0
    }
}

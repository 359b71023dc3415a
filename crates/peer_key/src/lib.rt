// Which peer a message speaks of: the whole key of a peer, made of a per-peer header (RFC 7854, section 4.2).
//
// Two customers may use one private address, and then the distinguisher alone tells their peers apart.
#![tactic(auto)]

ghost use Rattle.std.specs.Prelude.{◌≡◌};
ghost use Rattle.peer_key.specs.Key.{key_of, same_key};

use models::{Afi, BgpIdentifier, IpAddr, PeerDistinguisher};
use per_peer_record::BmpPerPeerHeader;
use per_peer_type::BmpPeerType;

// The five parts of the key: the address is two of them, its sixteen octets as the header shows them and its family. The AS, the other
// flags and the time are no part of it. The octets stand last, since they are the longest to compare.
#[derive(Clone, Copy, PartialEq, Eq, Debug)]
pub struct PeerKey {
    pub peer_distinguisher: PeerDistinguisher,
    pub peer_bgp_id: BgpIdentifier,
    pub peer_type: BmpPeerType,
    pub afi: Afi,
    pub octets: [u8; 16],
}

// The key of the peer that a header speaks of.
pub fn key_of(header: BmpPerPeerHeader) -> PeerKey
    ensures { result ≡ key_of header }
{
    let IpAddr { octets, afi } = header.peer_ip;
    PeerKey {
        peer_distinguisher: header.peer_distinguisher,
        peer_bgp_id: header.peer_bgp_id,
        peer_type: header.peer_type,
        afi,
        octets,
    }
}

impl PeerKey {
    // Whether all five parts are the same.
    #[tactic(auto, using(per_peer_type::proofs::Flags::types_compared), unfolding(crate::specs::Key::same_key))]
    pub fn equals(self, other: PeerKey) -> bool
        ensures { result ≡ same_key self other }
    {
        self == other
    }
}

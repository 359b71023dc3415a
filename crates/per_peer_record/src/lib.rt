// Whose numbers a message carries: the record of a per-peer header, and what is asked of it (RFC 7854, section 4.2).
#![tactic(auto)]

ghost use Rattle.std.specs.Prelude.{◌≡◌};
ghost use Rattle.per_peer_record.specs.Header.{afi_of, asn_length_of, peer_time, same_header, stripped};

use models::{Afi, Asn, AsnLength, BgpIdentifier, IpAddr, PeerDistinguisher};
use per_peer_type::{BmpPeerType, PerPeerFlags};

// What tells apart two peers with one address is the type and the distinguisher. Beside the time stand the words that it comes from.
#[derive(Clone, Copy)]
pub struct BmpPerPeerHeader {
    pub peer_type: BmpPeerType,
    pub peer_flags: PerPeerFlags,
    pub peer_distinguisher: PeerDistinguisher,
    pub peer_ip: IpAddr,
    pub peer_asn: Asn,
    pub peer_bgp_id: BgpIdentifier,
    pub timestamp: f64,
    pub seconds: u32,
    pub microseconds: u32,
}

impl BmpPerPeerHeader {
    // The family of the address that the header shows.
    pub fn afi(self) -> Afi
        ensures { result ≡ afi_of self }
    {
        self.peer_ip.afi
    }

    // How wide the AS numbers are; a Loc-RIB has no A flag, and they are wide.
    #[tactic(auto, using(per_peer_type::proofs::Flags::loc_rib_compared))]
    pub fn asn_length(self) -> AsnLength
        ensures { result ≡ asn_length_of self }
    {
        if self.peer_type == BmpPeerType::LocalRib {
            AsnLength::Bits32
        } else {
            self.peer_flags.asn_length()
        }
    }

    // The time, or none where the router does not know it: both words are zero (RFC 7854, section 4.2). The words decide and not the
    // f64, which -0.0 would fool.
    pub fn peer_time(self) -> Option<f64>
        ensures { result ≡ peer_time self }
    {
        if self.seconds == 0 && self.microseconds == 0 {
            None
        } else {
            Some(self.timestamp)
        }
    }

    // Whether type, flags, distinguisher, address, AS, BGP identifier and time are the same. The words that the time comes from are not
    // compared, since the Rust has none.
    #[tactic(auto, using(per_peer_type::proofs::Flags::types_compared))]
    pub fn equals(self, other: BmpPerPeerHeader) -> bool
        ensures { result ≡ same_header self other }
    {
        self.peer_type == other.peer_type
            && self.peer_flags == other.peer_flags
            && self.peer_distinguisher == other.peer_distinguisher
            && self.peer_ip == other.peer_ip
            && self.peer_asn == other.peer_asn
            && self.peer_bgp_id == other.peer_bgp_id
            && self.timestamp == other.timestamp
    }

    // The same header with the time and both of its words zero, to compare headers whose times do not matter.
    pub fn strip_timestamp(self) -> BmpPerPeerHeader
        ensures { result ≡ stripped self }
    {
        BmpPerPeerHeader {
            timestamp: 0.0,
            seconds: 0,
            microseconds: 0,
            ..self
        }
    }
}

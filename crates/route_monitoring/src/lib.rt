// The body of a BMP Route Monitoring message (RFC 7854, section 4.6).
#![tactic(auto)]

ghost use Rattle.std.specs.Prelude.{◌≡◌};
ghost use Rattle.route_monitoring.specs.Warnings.{warnings_of};
ghost use Rattle.route_monitoring.specs.Read.{read_route_monitoring};

use models::AsnLength;
use per_peer_type::BmpPeerType;
use wire::{Refusal, View};

#[derive(Clone, Copy)]
pub struct RouteMonitoring {
    pub bgp_message: View,
}

// Reads the body, which is one BGP message: the message, the place after it and the warnings. The length of an AS number and the type of
// the peer, which the per-peer header tells, decide the warning.
pub fn parse_route_monitoring(
    s: &[u8],
    asn_len: AsnLength,
    peer_type: BmpPeerType,
) -> Result<(RouteMonitoring, usize, u32), Refusal>
    ensures { result ≡ read_route_monitoring asn_len peer_type s.now }
{
    let length = s.len();
    if wire::LIMIT < length {
        return Err(wire::refusal_at(wire::TOO_LONG, 0));
    }
    wire::need_at(length, 0, wire::BGP_HEADER)?;
    let bgp_message = View { place: 0, length };
    let warnings = warnings_of(asn_len, peer_type);
    Ok((RouteMonitoring { bgp_message }, length, warnings))
}

fn warnings_of(asn_len: AsnLength, peer_type: BmpPeerType) -> u32
    ensures { result ≡ warnings_of asn_len peer_type }
{
    if peer_type.number() != per_peer_type::LOCAL_RIB {
        return 0;
    }
    match asn_len {
        AsnLength::Bits16 => models::SHORT_AS,
        AsnLength::Bits32 => 0,
    }
}

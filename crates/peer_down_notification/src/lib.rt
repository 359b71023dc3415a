// The body of a BMP Peer Down notification (RFC 7854, section 4.9).
#![tactic(auto)]

ghost use Rattle.std.specs.Prelude.{◌≡◌};
ghost use Rattle.peer_down_notification.specs.Shown.{kind_of};
ghost use Rattle.peer_down_notification.specs.Read.{named, has_data, read_peer_down};

use cursor::Cursor;
use wire::{Refusal, View};

// By their numbers from 0 on. `FsmEven` and `RemoteSystemsClosed` are spelt as the Rust spells them.
#[derive(Clone, Copy)]
pub enum PeerDownReason {
    Reserved,
    LocalSystemClosedNotificationPduFollows,
    LocalSystemClosedFsmEvenFollows,
    RemoteSystemClosedNotificationPduFollows,
    RemoteSystemsClosedNoData,
    PeerDeConfigured,
    LocalSystemClosedTlvDataFollows,
}

#[derive(Clone, Copy)]
pub struct PeerDownNotification {
    pub reason: PeerDownReason,
    // Data that is there and empty is not the same as no data.
    pub data: Option<View>,
}

impl PeerDownReason {
    // The number that stands for the reason on the wire.
    #[tactic(auto, unfolding(crate::specs::Shown::kind_of))]
    pub fn number(self) -> u8
        ensures { result ≡ kind_of self }
    {
        match self {
            PeerDownReason::Reserved => 0,
            PeerDownReason::LocalSystemClosedNotificationPduFollows => 1,
            PeerDownReason::LocalSystemClosedFsmEvenFollows => 2,
            PeerDownReason::RemoteSystemClosedNotificationPduFollows => 3,
            PeerDownReason::RemoteSystemsClosedNoData => 4,
            PeerDownReason::PeerDeConfigured => 5,
            PeerDownReason::LocalSystemClosedTlvDataFollows => 6,
        }
    }

    // Whether the reason has data where this many bytes follow it.
    #[tactic(auto, unfolding(crate::specs::Shown::kind_of, crate::specs::Read::has_data))]
    pub fn has_data(self, rest: usize) -> bool
        ensures { result ≡ has_data (kind_of self) rest }
    {
        match self {
            PeerDownReason::Reserved => 0 < rest,
            PeerDownReason::LocalSystemClosedNotificationPduFollows => true,
            PeerDownReason::LocalSystemClosedFsmEvenFollows => true,
            PeerDownReason::RemoteSystemClosedNotificationPduFollows => true,
            PeerDownReason::RemoteSystemsClosedNoData => false,
            PeerDownReason::PeerDeConfigured => false,
            PeerDownReason::LocalSystemClosedTlvDataFollows => true,
        }
    }
}

// The reason that a number stands for; one without a name is refused where it stands, at the body's start.
impl TryFrom<u8> for PeerDownReason {
    type Error = Refusal;

    ghost try_from_gives = { λ kind r. r ≡ named kind };

    #[tactic(auto, unfolding(crate::specs::Shown::reason_of))]
    fn try_from(kind: u8) -> Result<PeerDownReason, Refusal> {
        match kind {
            0 => Ok(PeerDownReason::Reserved),
            1 => Ok(PeerDownReason::LocalSystemClosedNotificationPduFollows),
            2 => Ok(PeerDownReason::LocalSystemClosedFsmEvenFollows),
            3 => Ok(PeerDownReason::RemoteSystemClosedNotificationPduFollows),
            4 => Ok(PeerDownReason::RemoteSystemsClosedNoData),
            5 => Ok(PeerDownReason::PeerDeConfigured),
            6 => Ok(PeerDownReason::LocalSystemClosedTlvDataFollows),
            _ => Err(wire::refusal_at(wire::UNKNOWN_KIND, 0)),
        }
    }
}

// Reads the reason and, by it, the data behind it: the notification and the place after it.
pub fn parse_peer_down_notification(s: &[u8]) -> Result<(PeerDownNotification, usize), Refusal>
    ensures { result ≡ read_peer_down s.now }
{
    if wire::LIMIT < s.len() {
        return Err(wire::refusal_at(wire::TOO_LONG, 0));
    }
    let start = Cursor { at: 0 };
    let (kind, _) = start.read::<u8>(s)?;
    let reason = PeerDownReason::try_from(kind)?;
    let length = wire::left(s, 1);
    if !reason.has_data(length) {
        return Ok((PeerDownNotification { reason, data: None }, 1));
    }
    let data = Some(View { place: 1, length });
    Ok((PeerDownNotification { reason, data }, 1 + length))
}

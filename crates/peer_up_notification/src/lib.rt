// The body of a BMP Peer Up notification (RFC 7854, section 4.10), behind the per-peer header.
#![tactic(auto)]

ghost use Rattle.std.specs.Prelude.{◌≡◌};
ghost use Rattle.wire.specs.Tlv.{Tlv, size_of};
ghost use Rattle.layout.specs.Layout.{cut_in};
ghost use Rattle.peer_up_notification.specs.Grammar.{widths};
ghost use Rattle.peer_up_notification.specs.Shown.{type_of, kind_of, info_of, entry, zero_tlv};
ghost use Rattle.peer_up_notification.specs.Warnings.{is_table_name, bad_table_name};
ghost use Rattle.peer_up_notification.specs.Read.{open_at, opens_of, step, stop_at, head_in, warnings_in, read_peer_up};

use cursor::Cursor;
use models::{Afi, IpAddr};
use numbers::WireNumber;
use per_peer_type::BmpPeerType;
use walk::lent::{Entry, Step};
use wire::{Refusal, View};

// 1 and 2 are the names of an Initiation message, whose numbers Peer Up shared before RFC 9736.
#[derive(Clone, Copy)]
pub enum PeerUpTlvType {
    String,
    SysDescr,
    SysName,
    VrTableName,
    AdminLabel,
    Unknown(u16),
}

// A TLV as the wire has it: its type, its length, and the place of its value.
#[derive(Clone, Copy)]
pub struct PeerUpNotificationTlv {
    pub kind: u16,
    pub info_len: u16,
    pub place: u32,
}

// Both ends of the session, where its two OPENs stand, and the TLVs, of which the first count are used.
#[derive(Clone, Copy)]
pub struct PeerUpNotification {
    pub local_addr: IpAddr,
    pub local_port: u16,
    pub remote_port: u16,
    pub sent_open: View,
    pub received_open: View,
    pub tlvs: [PeerUpNotificationTlv; wire::TLV_PLACES],
    pub count: usize,
}

// The tail starts at the stop: the walk reads no TLV that it does not keep.
#[derive(Clone, Copy)]
pub struct PeerUpAnswer {
    pub stop: usize,
    pub warnings: u32,
    pub message: PeerUpNotification,
}

// Where the two OPENs start: behind the address and the ports.
pub const OPENS_AT: usize = 20;

// The type of a TLV that tells the name of a table.
const TABLE_NAME: u16 = 3;

impl PeerUpTlvType {
    // The number that stands for the type on the wire.
    #[tactic(auto, unfolding(crate::specs::Shown::kind_of))]
    pub fn number(self) -> u16
        ensures { result ≡ kind_of self }
    {
        match self {
            PeerUpTlvType::String => 0,
            PeerUpTlvType::SysDescr => 1,
            PeerUpTlvType::SysName => 2,
            PeerUpTlvType::VrTableName => 3,
            PeerUpTlvType::AdminLabel => 4,
            PeerUpTlvType::Unknown(n) => n,
        }
    }
}

impl PeerUpNotificationTlv {
    // The name of the TLV's type.
    #[tactic(auto, unfolding(crate::specs::Shown::type_of))]
    pub fn info_type(self) -> PeerUpTlvType
        ensures { result ≡ type_of self.kind }
    {
        let kind = self.kind;
        match kind {
            0 => PeerUpTlvType::String,
            1 => PeerUpTlvType::SysDescr,
            2 => PeerUpTlvType::SysName,
            3 => PeerUpTlvType::VrTableName,
            4 => PeerUpTlvType::AdminLabel,
            _ => PeerUpTlvType::Unknown(kind),
        }
    }

    // Where the value stands.
    pub fn info_value(self) -> View
        ensures { result ≡ info_of self }
    {
        View {
            place: self.place as usize,
            length: self.info_len as usize,
        }
    }

    // Whether it tells the name of a table.
    fn is_table_name(self) -> bool
        ensures { result ≡ is_table_name (head_in self) }
    {
        self.kind == TABLE_NAME
    }

    // Whether it tells such a name, and not in 1 to 255 bytes.
    fn is_bad_table_name(self) -> bool
        ensures { result ≡ bad_table_name (head_in self) }
    {
        self.kind == TABLE_NAME && (self.info_len == 0 || 255 < self.info_len)
    }
}

// Reads the body, by the family of its address and the type of its peer, which the per-peer header tells.
pub fn parse_peer_up_notification(
    s: &[u8],
    afi: Afi,
    peer_type: BmpPeerType,
) -> Result<PeerUpAnswer, Refusal>
    ensures { result ≡ read_peer_up afi peer_type s.now }
{
    let (sent_open, received_open, behind) = read_opens(s)?;
    let mut tlvs = [PeerUpNotificationTlv::NONE; wire::TLV_PLACES];
    let walked = walk::lent::walk(s, behind, s.len(), &mut tlvs)?;
    Ok(PeerUpAnswer {
        stop: walked.stop,
        warnings: warnings_of(peer_type, &tlvs[..walked.count]),
        message: PeerUpNotification {
            local_addr: addresses::shown_ip(afi, addresses::sixteen_at(s, 0)),
            local_port: u16::read_at(s, 16),
            remote_port: u16::read_at(s, 18),
            sent_open,
            received_open,
            tlvs,
            count: walked.count,
        },
    })
}

impl Entry for PeerUpNotificationTlv {
    const NONE: PeerUpNotificationTlv = PeerUpNotificationTlv {
        kind: 0,
        info_len: 0,
        place: 0,
    };

    ghost Item = { Tlv };

    ghost step = { step };

    ghost size = { size_of };

    ghost entry = { entry };

    ghost NONE = { zero_tlv };

    ghost stop_at = { stop_at };

    // Of the walks over TLVs only this one goes on where exactly 4 bytes are left: a last TLV may be empty.
    #[tactic(auto, using(crate::proofs::Steps::answers))]
    fn step_at(s: &[u8], at: usize, slot: &mut PeerUpNotificationTlv) -> Result<Step, Refusal> {
        let Some(head) = tlv_head::read_head(Cursor { at }, s, 0) else {
            return Ok(Step::Stop(at));
        };
        let place = head.value.at;
        let length = head.length as usize;
        wire::need_at(s.len(), place, length)?;
        *slot = PeerUpNotificationTlv {
            kind: head.kind,
            info_len: head.length,
            place: place as u32,
        };
        Ok(Step::Whole(Cursor { at: place + length }))
    }
}

// The two OPENs, behind the address and the ports, and the place behind both.
fn read_opens(s: &[u8]) -> Result<(View, View, usize), Refusal>
    ensures { result ≡ opens_of s.now }
{
    if wire::LIMIT < s.len() {
        return Err(wire::refusal_at(wire::TOO_LONG, 0));
    }
    if s.len() < OPENS_AT {
        return Err(cut(s.len()));
    }
    let (sent_open, behind) = open_at(s, OPENS_AT)?;
    let (received_open, next) = open_at(s, behind.at)?;
    Ok((sent_open, received_open, next.at))
}

// An address of 16 bytes is one field.
fn cut(there: usize) -> Refusal
    ensures { result ≡ cut_in widths 0 there }
{
    let widths = [16usize, 2, 2];
    layout::cut_in(&widths, 0, there)
}

// A whole BGP message, and the cursor past it: the bytes of its header are asked for before those that its length says.
#[tactic(auto, using(crate::proofs::Opens::answers))]
fn open_at(s: &[u8], at: usize) -> Result<(View, Cursor), Refusal>
    ensures { result ≡ open_at s.now at }
{
    wire::need_at(s.len(), at, wire::BGP_HEADER)?;
    let length = u16::read_at(s, at + 16) as usize;
    if length < wire::BGP_HEADER {
        return Err(wire::refusal_at(wire::BGP_LENGTH, at + 16));
    }
    wire::need_at(s.len(), at, length)?;
    let view = View { place: at, length };
    Ok((view, Cursor { at: at + length }))
}

// The word of warnings, which is of a Loc-RIB alone: a name of a bad length, and that no TLV tells a name.
fn warnings_of(peer_type: BmpPeerType, tlvs: &[PeerUpNotificationTlv]) -> u32
    ensures { result ≡ warnings_in peer_type tlvs.now }
{
    if peer_type.number() != per_peer_type::LOCAL_RIB {
        return 0;
    }
    let bad = tlvs.iter().any(|tlv| tlv.is_bad_table_name());
    let named = tlvs.iter().any(|tlv| tlv.is_table_name());
    let of_bad = if bad { models::BAD_TABLE_NAME } else { 0 };
    let of_none = if named { 0 } else { models::NO_TABLE_NAME };
    of_bad + of_none
}

#[cfg(test)]
mod tests {
    use super::*;
    use std::test::Fail;

    #[test]
    fn a_step_hands_back_its_entry(rt: HostRuntime) -> Result<(), Fail> {
        let body = [1, 0, 0, 0, 2, 104, 105, 0];
        let found = <PeerUpNotificationTlv as walk::Entry>::step_at(&body, 1)
            .ok()
            .ok_or("refused")?;
        let walk::Step::Whole(tlv, next) = found else {
            return Err(Fail::from("no TLV"));
        };
        assert_eq!(rt; (tlv.kind, tlv.info_len, tlv.place, next.at), (0, 2, 5, 7));
        let end = <PeerUpNotificationTlv as walk::Entry>::step_at(&body, 7);
        assert!(rt; matches!(end, Ok(walk::Step::Stop(7))));
        Ok(())
    }
}

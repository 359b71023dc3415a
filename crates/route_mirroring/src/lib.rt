// The body of a BMP Route Mirroring message (RFC 7854, section 4.7), behind the per-peer header.
#![tactic(auto)]

ghost use Rattle.std.specs.Prelude.{◌≡◌, ◌+◌, ◌≤◌, length, drop};
ghost use Rattle.wire.specs.Number as Number;
ghost use Rattle.wire.specs.Bytes.{num_at};
ghost use Rattle.route_mirroring.specs.Grammar.{Tlv, size_of};
ghost use Rattle.route_mirroring.specs.Shown.{info_of, code_of, value_of, entry, zero_tlv};
ghost use Rattle.route_mirroring.specs.Read.{message_step, information_step, step, stop_at, stepped, read_mirroring};

use cursor::Cursor;
use walk::lent::{Entry, Step};
use wire::{Refusal, View};

#[derive(Clone, Copy)]
pub enum RouteMirroringInfo {
    ErroredPdu,
    MessageLost,
}

#[derive(Clone, Copy)]
pub enum RouteMirroringValue {
    BgpMessage(View),
    Information(RouteMirroringInfo),
}

// A TLV as the wire has it: its type, its length, and the place of a BGP message or the code of information.
#[derive(Clone, Copy)]
pub struct RouteMirroringTlv {
    pub kind: u16,
    pub info_len: u16,
    pub number: u32,
}

// The TLVs, of which the first count are used; the others are zero.
#[derive(Clone, Copy)]
pub struct RouteMirroring {
    pub tlvs: [RouteMirroringTlv; wire::TLV_PLACES],
    pub count: usize,
}

// The tail starts at the stop: the walk reads no TLV that it does not keep.
#[derive(Clone, Copy)]
pub struct RouteMirroringAnswer {
    pub stop: usize,
    pub message: RouteMirroring,
}

impl RouteMirroringInfo {
    // The code that stands for the information on the wire.
    #[tactic(auto, unfolding(crate::specs::Shown::code_of))]
    pub fn code(self) -> u16
        ensures { result ≡ code_of self }
    {
        match self {
            RouteMirroringInfo::ErroredPdu => 0,
            RouteMirroringInfo::MessageLost => 1,
        }
    }
}

impl RouteMirroringTlv {
    // Where the BGP message stands if the type is 0, else the name of the information.
    pub fn value(self) -> RouteMirroringValue
        ensures { result ≡ value_of self }
    {
        if self.kind == 0 {
            let view = View {
                place: self.number as usize,
                length: self.info_len as usize,
            };
            return RouteMirroringValue::BgpMessage(view);
        }
        RouteMirroringValue::Information(info_of(self.number))
    }
}

// Reads the body of a Route Mirroring message: its TLVs, up to 32.
pub fn parse_route_mirroring(s: &[u8]) -> Result<RouteMirroringAnswer, Refusal>
    ensures { result ≡ read_mirroring s.now }
{
    let mut tlvs = [RouteMirroringTlv::NONE; wire::TLV_PLACES];
    let walked = walk::lent::walk(s, 0, s.len(), &mut tlvs)?;
    Ok(RouteMirroringAnswer {
        stop: walked.stop,
        message: RouteMirroring {
            tlvs,
            count: walked.count,
        },
    })
}

impl Entry for RouteMirroringTlv {
    const NONE: RouteMirroringTlv = RouteMirroringTlv {
        kind: 0,
        info_len: 0,
        number: 0,
    };

    ghost Item = { Tlv };

    ghost step = { step };

    ghost size = { size_of };

    ghost entry = { entry };

    ghost NONE = { zero_tlv };

    ghost stop_at = { stop_at };

    // A TLV is read while more than a head is left; its type is judged first.
    #[tactic(auto, using(crate::proofs::Steps::step_answers))]
    fn step_at(s: &[u8], at: usize, slot: &mut RouteMirroringTlv) -> Result<Step, Refusal> {
        let Some(head) = tlv_head::read_head(Cursor { at }, s, 1) else {
            return Ok(Step::Stop(at));
        };
        match head.kind {
            0 => message_at(s, at, head.length, head.value, slot),
            1 => information_at(s, at, head.length, head.value, slot),
            _ => Err(wire::refusal_at(wire::BAD_TLV_TYPE, at)),
        }
    }
}

// A BGP message behind type and length: that it has a BGP header is judged before how much is left.
#[tactic(auto, using(crate::proofs::Steps::message_answers))]
fn message_at(
    s: &[u8],
    at: usize,
    info_len: u16,
    value: Cursor,
    slot: &mut RouteMirroringTlv,
) -> Result<Step, Refusal>
    requires s_len_bound { length s.now ≤ Number.limit }
    requires info_len_value { (info_len ≡ num_at 2 (drop at s.now) 2) × (value.at ≡ at + 4) }
    ensures { (result, slot.new) ≡ stepped message_step s.now at slot.old }
{
    let place = value.at;
    let length = info_len as usize;
    if length < wire::BGP_HEADER {
        return Err(wire::refusal_at(wire::BGP_LENGTH, at + 2));
    }
    wire::need_at(s.len(), place, length)?;
    *slot = RouteMirroringTlv {
        kind: 0,
        info_len,
        number: place as u32,
    };
    Ok(Step::Whole(Cursor { at: place + length }))
}

// Information behind type and length: two bytes, whatever the length says.
#[tactic(auto, using(crate::proofs::Steps::information_answers))]
fn information_at(
    s: &[u8],
    at: usize,
    info_len: u16,
    value: Cursor,
    slot: &mut RouteMirroringTlv,
) -> Result<Step, Refusal>
    requires { (info_len ≡ num_at 2 (drop at s.now) 2) × (value.at ≡ at + 4) }
    ensures { (result, slot.new) ≡ stepped information_step s.now at slot.old }
{
    let (code, next) = value.read::<u16>(s)?;
    if 1 < code {
        return Err(wire::refusal_at(wire::UNKNOWN_KIND, value.at));
    }
    *slot = RouteMirroringTlv {
        kind: 1,
        info_len,
        number: code as u32,
    };
    Ok(Step::Whole(next))
}

// The name of a code that the reader keeps; any other code has the last name.
#[tactic(auto, unfolding(crate::specs::Shown::info_of))]
fn info_of(code: u32) -> RouteMirroringInfo
    ensures { result ≡ info_of code }
{
    match code {
        0 => RouteMirroringInfo::ErroredPdu,
        _ => RouteMirroringInfo::MessageLost,
    }
}

#[cfg(test)]
mod tests {
    use super::*;
    use std::test::Fail;

    #[test]
    fn a_step_hands_back_its_entry(rt: HostRuntime) -> Result<(), Fail> {
        let body = [1, 0, 1, 0, 2, 0, 1, 0, 0];
        let found = <RouteMirroringTlv as walk::Entry>::step_at(&body, 1)
            .ok()
            .ok_or("refused")?;
        let walk::Step::Whole(tlv, next) = found else {
            return Err(Fail::from("no TLV"));
        };
        assert_eq!(rt; (tlv.kind, tlv.info_len, tlv.number, next.at), (1, 2, 1, 7));
        let end = <RouteMirroringTlv as walk::Entry>::step_at(&body, 7);
        assert!(rt; matches!(end, Ok(walk::Step::Stop(7))));
        Ok(())
    }
}

// The body of a BMP Termination message (RFC 7854, section 4.5).
#![tactic(auto)]

ghost use Rattle.std.specs.Prelude.{◌≡◌};
ghost use Rattle.termination_message.specs.Grammar.{Tlv, size_of};
ghost use Rattle.termination_message.specs.Shown.{type_of, reason_of, code_of, value_of, entry, zero_tlv};
ghost use Rattle.termination_message.specs.Read.{step, stop_behind, read_termination};

use cursor::Cursor;
use walk::lent::{Entry, Step};
use wire::{Refusal, View};

#[derive(Clone, Copy)]
pub enum TerminationTlvType {
    String,
    Reason,
}

#[derive(Clone, Copy)]
pub enum TerminationReason {
    AdministrativelyClosed,
    UnspecifiedReason,
    OutOfResources,
    RedundantConnection,
    PermanentlyAdministrativelyClosed,
}

#[derive(Clone, Copy)]
pub enum TerminationTlvValue {
    String(View),
    Reason(TerminationReason),
}

// A TLV as the wire has it: its type, its length, and the place of a String's value or the code of a Reason. A Reason's length is
// kept as it stands: the reader takes two bytes of value whatever it holds.
#[derive(Clone, Copy)]
pub struct TerminationTlv {
    pub kind: u16,
    pub info_len: u16,
    pub number: u32,
}

// The TLVs, of which the first count are used; the others are zero.
#[derive(Clone, Copy)]
pub struct TerminationMessage {
    pub tlvs: [TerminationTlv; wire::TLV_PLACES],
    pub count: usize,
}

// The stop is what the Rust has consumed, the tail starts where the last TLV ends: after an oversized length they differ by 4.
#[derive(Clone, Copy)]
pub struct TerminationAnswer {
    pub stop: usize,
    pub tail: usize,
    pub message: TerminationMessage,
}

impl TerminationReason {
    // The number that stands for the reason on the wire.
    #[tactic(auto, unfolding(crate::specs::Shown::code_of))]
    pub fn code(self) -> u16
        ensures { result ≡ code_of self }
    {
        match self {
            TerminationReason::AdministrativelyClosed => 0,
            TerminationReason::UnspecifiedReason => 1,
            TerminationReason::OutOfResources => 2,
            TerminationReason::RedundantConnection => 3,
            TerminationReason::PermanentlyAdministrativelyClosed => 4,
        }
    }
}

impl TerminationTlv {
    // Where a String's value stands, or the name of a Reason: type 0 is a String, every other a Reason.
    pub fn info_value(self) -> TerminationTlvValue
        ensures { result ≡ value_of self }
    {
        let number = self.number;
        if self.kind == 0 {
            return TerminationTlvValue::String(View {
                place: number as usize,
                length: self.info_len as usize,
            });
        }
        TerminationTlvValue::Reason(reason_of(number))
    }
}

impl TerminationTlvValue {
    // The type of a TLV that has this value.
    #[tactic(auto, unfolding(crate::specs::Shown::type_of))]
    pub fn info_type(self) -> TerminationTlvType
        ensures { result ≡ type_of self }
    {
        match self {
            TerminationTlvValue::String(_) => TerminationTlvType::String,
            TerminationTlvValue::Reason(_) => TerminationTlvType::Reason,
        }
    }
}

// Reads the body of a Termination message: its TLVs, up to 32, and where its tail starts.
pub fn parse_termination_message(s: &[u8]) -> Result<TerminationAnswer, Refusal>
    ensures { result ≡ read_termination s.now }
{
    let mut tlvs = [TerminationTlv::NONE; wire::TLV_PLACES];
    let walked = walk::lent::walk(s, 0, s.len(), &mut tlvs)?;
    Ok(TerminationAnswer {
        stop: walked.stop,
        tail: walked.end,
        message: TerminationMessage {
            tlvs,
            count: walked.count,
        },
    })
}

impl Entry for TerminationTlv {
    const NONE: TerminationTlv = TerminationTlv {
        kind: 0,
        info_len: 0,
        number: 0,
    };

    ghost Item = { Tlv };

    ghost step = { step };

    ghost size = { size_of };

    ghost entry = { entry };

    ghost NONE = { zero_tlv };

    ghost stop_at = { stop_behind };

    // The type is judged before the length. A Reason ends behind its two bytes, and not where its length says.
    #[tactic(auto, using(crate::proofs::Steps::answers))]
    fn step_at(s: &[u8], at: usize, slot: &mut TerminationTlv) -> Result<Step, Refusal> {
        let Some(head) = tlv_head::read_head(Cursor { at }, s, 1) else {
            return Ok(Step::Stop(at));
        };
        let kind = head.kind;
        let info_len = head.length;
        let place = head.value.at;
        if 1 < kind {
            return Err(wire::refusal_at(wire::UNKNOWN_KIND, at));
        }
        let end = place + (info_len as usize);
        if s.len() < end {
            return Ok(Step::Stop(place));
        }
        if kind == 0 {
            *slot = TerminationTlv {
                kind,
                info_len,
                number: place as u32,
            };
            return Ok(Step::Whole(Cursor { at: end }));
        }
        let (code, next) = head.value.read::<u16>(s)?;
        if 4 < code {
            return Err(wire::refusal_at(wire::UNKNOWN_KIND, place));
        }
        *slot = TerminationTlv {
            kind,
            info_len,
            number: code as u32,
        };
        Ok(Step::Whole(next))
    }
}

// The name of a code; all above 3 have the last, of which the reader lets only 4 in.
#[tactic(auto, unfolding(crate::specs::Shown::reason_of))]
fn reason_of(code: u32) -> TerminationReason
    ensures { result ≡ reason_of code }
{
    match code {
        0 => TerminationReason::AdministrativelyClosed,
        1 => TerminationReason::UnspecifiedReason,
        2 => TerminationReason::OutOfResources,
        3 => TerminationReason::RedundantConnection,
        _ => TerminationReason::PermanentlyAdministrativelyClosed,
    }
}

#[cfg(test)]
mod tests {
    use super::*;
    use std::test::Fail;

    #[test]
    fn a_step_hands_back_its_entry(rt: HostRuntime) -> Result<(), Fail> {
        let body = [1, 0, 1, 0, 2, 0, 3, 0, 0];
        let found = <TerminationTlv as walk::Entry>::step_at(&body, 1)
            .ok()
            .ok_or("refused")?;
        let walk::Step::Whole(tlv, next) = found else {
            return Err(Fail::from("no TLV"));
        };
        assert_eq!(rt; (tlv.kind, tlv.info_len, tlv.number, next.at), (1, 2, 3, 7));
        let end = <TerminationTlv as walk::Entry>::step_at(&body, 7);
        assert!(rt; matches!(end, Ok(walk::Step::Stop(7))));
        Ok(())
    }
}

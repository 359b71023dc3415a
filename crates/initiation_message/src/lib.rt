// The body of a BMP Initiation message (RFC 7854, section 4.3).
#![tactic(auto)]

ghost use Rattle.std.specs.Prelude.{◌≡◌};
ghost use Rattle.wire.specs.Tlv.{Tlv, size_of};
ghost use Rattle.initiation_message.specs.Shown.{type_of, kind_of, info_of, entry, zero_tlv};
ghost use Rattle.initiation_message.specs.Read.{step, stop_behind, read_initiation};

use cursor::Cursor;
use walk::lent::{Entry, Step};
use wire::{Refusal, View};

#[derive(Clone, Copy)]
pub enum InitiationTlvType {
    String,
    SysDescr,
    SysName,
    VrTableName,
    AdminLabel,
    Unknown(u16),
}

// A TLV as the wire has it: its type, its length, and the place of its value.
#[derive(Clone, Copy)]
pub struct InitiationTlv {
    pub kind: u16,
    pub info_len: u16,
    pub place: u32,
}

// The TLVs, of which the first count are used; the others are zero.
#[derive(Clone, Copy)]
pub struct InitiationMessage {
    pub tlvs: [InitiationTlv; wire::TLV_PLACES],
    pub count: usize,
}

// The stop is what the Rust has consumed, the tail starts where the last TLV ends: after an oversized length they differ by 4.
#[derive(Clone, Copy)]
pub struct InitiationAnswer {
    pub stop: usize,
    pub tail: usize,
    pub message: InitiationMessage,
}

impl InitiationTlvType {
    // The number that stands for the type on the wire.
    #[tactic(auto, unfolding(crate::specs::Shown::kind_of))]
    pub fn number(self) -> u16
        ensures { result ≡ kind_of self }
    {
        match self {
            InitiationTlvType::String => 0,
            InitiationTlvType::SysDescr => 1,
            InitiationTlvType::SysName => 2,
            InitiationTlvType::VrTableName => 3,
            InitiationTlvType::AdminLabel => 4,
            InitiationTlvType::Unknown(n) => n,
        }
    }
}

impl InitiationTlv {
    // The name of the TLV's type.
    #[tactic(auto, unfolding(crate::specs::Shown::type_of))]
    pub fn info_type(self) -> InitiationTlvType
        ensures { result ≡ type_of self.kind }
    {
        let kind = self.kind;
        match kind {
            0 => InitiationTlvType::String,
            1 => InitiationTlvType::SysDescr,
            2 => InitiationTlvType::SysName,
            3 => InitiationTlvType::VrTableName,
            4 => InitiationTlvType::AdminLabel,
            _ => InitiationTlvType::Unknown(kind),
        }
    }

    // Where the value stands.
    pub fn info(self) -> View
        ensures { result ≡ info_of self }
    {
        View {
            place: self.place as usize,
            length: self.info_len as usize,
        }
    }
}

// Reads the body of an Initiation message: its TLVs, up to 32, and where its tail starts.
pub fn parse_initiation_message(s: &[u8]) -> Result<InitiationAnswer, Refusal>
    ensures { result ≡ read_initiation s.now }
{
    let mut tlvs = [InitiationTlv::NONE; wire::TLV_PLACES];
    let walked = walk::lent::walk(s, 0, s.len(), &mut tlvs)?;
    Ok(InitiationAnswer {
        stop: walked.stop,
        tail: walked.end,
        message: InitiationMessage {
            tlvs,
            count: walked.count,
        },
    })
}

impl Entry for InitiationTlv {
    const NONE: InitiationTlv = InitiationTlv {
        kind: 0,
        info_len: 0,
        place: 0,
    };

    ghost Item = { Tlv };

    ghost step = { step };

    ghost size = { size_of };

    ghost entry = { entry };

    ghost NONE = { zero_tlv };

    ghost stop_at = { stop_behind };

    // A TLV is read while more than a head is left. None is refused: what is not whole is the tail.
    #[tactic(auto, using(crate::proofs::Steps::answers))]
    fn step_at(s: &[u8], at: usize, slot: &mut InitiationTlv) -> Result<Step, Refusal> {
        let Some(head) = tlv_head::read_head(Cursor { at }, s, 1) else {
            return Ok(Step::Stop(at));
        };
        let place = head.value.at;
        let size = head.length as usize;
        if wire::left(s, place) < size {
            return Ok(Step::Stop(place));
        }
        *slot = InitiationTlv {
            kind: head.kind,
            info_len: head.length,
            place: place as u32,
        };
        Ok(Step::Whole(Cursor { at: place + size }))
    }
}

#[cfg(test)]
mod tests {
    use super::*;
    use std::test::Fail;

    // Two whole TLVs, and a tail of three bytes.
    const BODY: [u8; 14] = [0, 2, 0, 1, 114, 0, 1, 0, 2, 118, 49, 9, 9, 9];

    #[test]
    fn a_step_hands_back_its_entry(rt: HostRuntime) -> Result<(), Fail> {
        let found = <InitiationTlv as walk::Entry>::step_at(&BODY, 5)
            .ok()
            .ok_or("refused")?;
        let walk::Step::Whole(tlv, next) = found else {
            return Err(Fail::from("no TLV"));
        };
        assert_eq!(rt; (tlv.kind, tlv.info_len, tlv.place, next.at), (1, 2, 9, 11));
        let end = <InitiationTlv as walk::Entry>::step_at(&BODY, 11);
        assert!(rt; matches!(end, Ok(walk::Step::Stop(11))));
        Ok(())
    }

    #[test]
    fn a_walk_by_value_fills_the_table(rt: HostRuntime) -> Result<(), Fail> {
        let mut table = [InitiationTlv::NONE; 2];
        let walked = walk::walk(&BODY, 0, BODY.len(), &mut table)
            .ok()
            .ok_or("refused")?;
        assert_eq!(rt; (walked.count, walked.end, walked.stop), (2, 11, 11));
        assert_eq!(rt; (table[0].kind, table[0].place), (2, 4));
        assert_eq!(rt; (table[1].kind, table[1].place), (1, 9));
        let full = walk::walk(&BODY, 0, BODY.len(), &mut table[..1])
            .map(|walked| walked.count)
            .map_err(|refusal| (refusal.number, refusal.place));
        assert_eq!(rt; full, Err((wire::TOO_MANY, 5)));
        Ok(())
    }
}

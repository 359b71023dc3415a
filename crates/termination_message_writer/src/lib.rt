// Writing the body of a BMP Termination message (RFC 7854, section 4.5).
#![tactic(auto)]

ghost use Rattle.std.specs.Prelude.{◌≡◌, length};
ghost use Rattle.writing.specs.Write.{Wrote};
ghost use Rattle.tlv_table.specs.Tlvs.{one_tlv};
ghost use Rattle.tlv_table.proofs.Table.{bodied};
ghost use Rattle.termination_message_writer.specs.Write.{writer, entry_of, bytes_of, writable};
ghost use Rattle.termination_message_writer.specs.Entries.{entries};

use table_writer::Table;
use termination_message::{TerminationMessage, TerminationTlv};
use tlv_table::{TlvEntry, TlvValue};
use wire::{Refusal, View};

// Writes the message, whose views point into the buffer, to the front of the output. The table is judged and measured in one pass
// and written in a second, where it stands.
#[tactic(auto, using(crate::proofs::Written::whole_written))]
pub fn write_termination_message(
    message: TerminationMessage,
    buffer: &[u8],
    out: &mut [u8],
) -> Result<usize, Refusal>
    ensures { Wrote (writable message (length buffer.now)) (bytes_of message buffer.now) out.old result out.new }
{
    let count = message.count;
    if wire::TLV_PLACES < count {
        return writing::write_answer(false, 0, out.len());
    }
    table_writer::write::<Tlvs>(0, &message.tlvs[..count], buffer, out)
}

struct Tlvs;

impl Table for Tlvs {
    type Entry = TerminationTlv;

    ghost Item = { writer.Item };

    ghost part = { writer.part };

    ghost put_item = { writer.put };

    ghost ok = { writer.ok };

    ghost size = { writer.size };

    ghost one = { λ b t. one_tlv b (entry_of t) };

    ghost bodied = { bodied entries };

    // The last TLV must not be an empty String: the reader would take it for a tail.
    #[tactic(auto, unfolding(crate::specs::Write::tlv_writable))]
    fn is_writable(tlv: TerminationTlv, buffer_length: usize, after: usize) -> bool {
        match tlv.kind {
            0 => tlv_table::entry_writable_before(entry_of(tlv), buffer_length, after),
            1 => tlv.info_len == 2 && tlv.number <= 4,
            _ => false,
        }
    }

    fn length(tlv: TerminationTlv) -> usize {
        tlv_table::tlv_length(entry_of(tlv))
    }

    fn put(out: &mut [u8], at: usize, tlv: TerminationTlv, buffer: &[u8]) {
        tlv_table::put_entry(out, at, entry_of(tlv), buffer);
    }
}

// A Reason's code is written in two bytes; only codes that fit them are writable.
fn entry_of(tlv: TerminationTlv) -> TlvEntry
    ensures { result ≡ entry_of tlv }
{
    let number = tlv.number;
    let size = tlv.info_len;
    if tlv.kind == 0 {
        let view = View {
            place: number as usize,
            length: size as usize,
        };
        return TlvEntry {
            kind: 0,
            size,
            value: TlvValue::Part(view),
        };
    }
    TlvEntry {
        kind: 1,
        size,
        value: TlvValue::Number((number % 65536) as u16),
    }
}

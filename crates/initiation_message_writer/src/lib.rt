// Writing the body of a BMP Initiation message (RFC 7854, section 4.3).
#![tactic(auto)]

ghost use Rattle.std.specs.Prelude.{◌≡◌, length};
ghost use Rattle.writing.specs.Write.{Wrote};
ghost use Rattle.tlv_table.specs.Tlvs.{one_tlv};
ghost use Rattle.tlv_table.proofs.Table.{bodied};
ghost use Rattle.initiation_message_writer.specs.Write.{writer, entry_of, bytes_of, writable};
ghost use Rattle.initiation_message_writer.specs.Entries.{entries};

use initiation_message::{InitiationMessage, InitiationTlv};
use table_writer::Table;
use tlv_table::{TlvEntry, TlvValue};
use wire::Refusal;

// Writes the message, whose views point into the buffer, to the front of the output. The table is judged and measured in one pass
// and written in a second, where it stands.
#[tactic(auto, using(crate::proofs::Written::whole_written))]
pub fn write_initiation_message(
    message: InitiationMessage,
    buffer: &[u8],
    out: &mut [u8],
) -> Result<usize, Refusal>
    ensures { Wrote (writable message (length buffer.now)) (bytes_of message buffer.now) out.old result out.new }
{
    let count = message.count;
    if wire::TLV_PLACES < count {
        return writing::write_answer(false, 0, out.len());
    }
    table_writer::write::<Tlvs>(0, &message.tlvs[..count], buffer, out)
}

struct Tlvs;

impl Table for Tlvs {
    type Entry = InitiationTlv;

    ghost Item = { writer.Item };

    ghost part = { writer.part };

    ghost put_item = { writer.put };

    ghost ok = { writer.ok };

    ghost size = { writer.size };

    ghost one = { λ b t. one_tlv b (entry_of t) };

    ghost bodied = { bodied entries };

    // The last TLV must not be empty: the reader would take it for a tail.
    fn is_writable(tlv: InitiationTlv, buffer_length: usize, after: usize) -> bool {
        tlv_table::entry_writable_before(entry_of(tlv), buffer_length, after)
    }

    fn length(tlv: InitiationTlv) -> usize {
        tlv_table::tlv_length(entry_of(tlv))
    }

    fn put(out: &mut [u8], at: usize, tlv: InitiationTlv, buffer: &[u8]) {
        tlv_table::put_entry(out, at, entry_of(tlv), buffer);
    }
}

fn entry_of(tlv: InitiationTlv) -> TlvEntry
    ensures { result ≡ entry_of tlv }
{
    TlvEntry {
        kind: tlv.kind,
        size: tlv.info_len,
        value: TlvValue::Part(tlv.info()),
    }
}

#[cfg(test)]
mod tests {
    use super::*;

    // Two TLVs whose values are the first byte of the buffer and the two behind it.
    const ENTRIES: [InitiationTlv; 2] = [
        InitiationTlv {
            kind: 2,
            info_len: 1,
            place: 0,
        },
        InitiationTlv {
            kind: 1,
            info_len: 2,
            place: 1,
        },
    ];

    const BUFFER: [u8; 3] = [114, 118, 49];

    fn answer(front: usize, buffer_length: usize, room: usize) -> Result<usize, u8> {
        table_writer::answer::<Tlvs>(front, &ENTRIES, buffer_length, room).map_err(
            |refusal| refusal.number,
        )
    }

    #[test]
    fn a_table_is_measured(rt: HostRuntime) {
        assert_eq!(rt; answer(4, 3, 20), Ok(15));
        assert_eq!(rt; answer(4, 2, 20), Err(wire::BAD_FIELD));
        assert_eq!(rt; answer(usize::MAX, 3, 20), Err(wire::TOO_LONG));
        assert_eq!(rt; answer(10, 3, 20), Err(wire::NO_ROOM));
    }

    #[test]
    fn a_table_is_put_whole_or_not_at_all(rt: HostRuntime) {
        let mut out = [7; 13];
        table_writer::put_all::<Tlvs>(&mut out, 1, &ENTRIES, &BUFFER);
        assert_eq!(rt; out, [7, 0, 2, 0, 1, 114, 0, 1, 0, 2, 118, 49, 7]);
        table_writer::put_all::<Tlvs>(&mut out, 3, &ENTRIES, &BUFFER);
        table_writer::put_all::<Tlvs>(&mut out, 0, &ENTRIES, &BUFFER[..2]);
        assert_eq!(rt; out, [7, 0, 2, 0, 1, 114, 0, 1, 0, 2, 118, 49, 7]);
    }
}

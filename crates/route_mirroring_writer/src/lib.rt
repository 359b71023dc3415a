// Writing the body of a BMP Route Mirroring message (RFC 7854, section 4.7), behind the per-peer header.
#![tactic(auto)]

ghost use Rattle.std.specs.Prelude.{◌≡◌, length};
ghost use Rattle.writing.specs.Write.{Wrote};
ghost use Rattle.tlv_table.specs.Tlvs.{one_tlv};
ghost use Rattle.tlv_table.proofs.Table.{bodied};
ghost use Rattle.route_mirroring_writer.specs.Write.{writer, known, has_header, entry_of, bytes_of, writable};
ghost use Rattle.route_mirroring_writer.specs.Entries.{entries};

use route_mirroring::{RouteMirroring, RouteMirroringTlv, RouteMirroringValue};
use table_writer::Table;
use tlv_table::{TlvEntry, TlvValue};
use wire::Refusal;

// Writes the message, whose views point into the buffer, to the front of the output. The table is judged and measured in one pass
// and written in a second, where it stands.
#[tactic(auto, using(crate::proofs::Written::whole_written))]
pub fn write_route_mirroring(
    message: RouteMirroring,
    buffer: &[u8],
    out: &mut [u8],
) -> Result<usize, Refusal>
    ensures { Wrote (writable message (length buffer.now)) (bytes_of message buffer.now) out.old result out.new }
{
    let count = message.count;
    if wire::TLV_PLACES < count {
        return writing::write_answer(false, 0, out.len());
    }
    table_writer::write::<Tlvs>(0, &message.tlvs[..count], buffer, out)
}

struct Tlvs;

impl Table for Tlvs {
    type Entry = RouteMirroringTlv;

    ghost Item = { writer.Item };

    ghost part = { writer.part };

    ghost put_item = { writer.put };

    ghost ok = { writer.ok };

    ghost size = { writer.size };

    ghost one = { λ b t. one_tlv b (entry_of t) };

    ghost bodied = { bodied entries };

    #[tactic(auto, unfolding(crate::specs::Write::tlv_writable))]
    fn is_writable(tlv: RouteMirroringTlv, buffer_length: usize, _after: usize) -> bool {
        let entry = entry_of(tlv);
        is_known(tlv) && has_header(entry) && tlv_table::entry_writable(entry, buffer_length)
    }

    fn length(tlv: RouteMirroringTlv) -> usize {
        tlv_table::tlv_length(entry_of(tlv))
    }

    fn put(out: &mut [u8], at: usize, tlv: RouteMirroringTlv, buffer: &[u8]) {
        tlv_table::put_entry(out, at, entry_of(tlv), buffer);
    }
}

// A part is a BGP message, which has at least its header.
fn has_header(entry: TlvEntry) -> bool
    ensures { result ≡ has_header entry.size entry.value }
{
    match entry.value {
        TlvValue::Part(_) => wire::BGP_HEADER <= (entry.size as usize),
        TlvValue::Number(_) => true,
    }
}

// The reader shows no type above 1, and no code above 1.
fn is_known(tlv: RouteMirroringTlv) -> bool
    ensures { result ≡ known tlv }
{
    match tlv.kind {
        0 => true,
        1 => tlv.number <= 1,
        _ => false,
    }
}

fn entry_of(tlv: RouteMirroringTlv) -> TlvEntry
    ensures { result ≡ entry_of tlv }
{
    let size = tlv.info_len;
    match tlv.value() {
        RouteMirroringValue::BgpMessage(view) => TlvEntry {
            kind: 0,
            size,
            value: TlvValue::Part(view),
        },
        RouteMirroringValue::Information(info) => TlvEntry {
            kind: 1,
            size,
            value: TlvValue::Number(info.code()),
        },
    }
}

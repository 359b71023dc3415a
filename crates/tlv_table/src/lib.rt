// Judging, measuring and putting one TLV: what the writers of all bodies with a list of TLVs share.
#![tactic(auto)]

ghost use Rattle.std.specs.Prelude.{◌≡◌, ◌+◌, ◌-◌, ◌≤◌, leb, length};
ghost use Rattle.writing.specs.Write.{put_at};
ghost use Rattle.tlv_table.specs.Tlvs.{value_bytes, entry_writable, entry_writable_before, one_tlv};

use numbers_writer::PutNumber;
use wire::View;

// A value: what a view shows of the buffer, or a number of two bytes.
#[derive(Clone, Copy)]
pub enum TlvValue {
    Part(View),
    Number(u16),
}

// A TLV to be written: its type, its length, and its value.
#[derive(Clone, Copy)]
pub struct TlvEntry {
    pub kind: u16,
    pub size: u16,
    pub value: TlvValue,
}

// Whether an entry can be written from a buffer of this length.
#[tactic(auto, unfolding(crate::specs::Tlvs::entry_writable))]
pub fn entry_writable(tlv: TlvEntry, buffer_length: usize) -> bool
    ensures { result ≡ entry_writable buffer_length tlv }
{
    match tlv.value {
        TlvValue::Part(view) => writing::tlv_fits(tlv.kind, tlv.size, view, buffer_length),
        TlvValue::Number(_) => tlv.size == 2,
    }
}

// The same with so many entries after it, for a reader that takes an empty last TLV for a tail.
#[tactic(auto, unfolding(crate::specs::Tlvs::entry_writable_before))]
pub fn entry_writable_before(tlv: TlvEntry, buffer_length: usize, after: usize) -> bool
    ensures { result ≡ entry_writable_before buffer_length after tlv }
{
    entry_writable(tlv, buffer_length) && (0 < tlv.size || 0 < after)
}

// How many bytes an entry takes.
pub fn tlv_length(tlv: TlvEntry) -> usize
    ensures { (result ≡ 4 + tlv.size) × (result ≤ 65539) }
{
    4 + (tlv.size as usize)
}

// Puts the bytes of an entry, whose view points into the buffer, at a place of the output: all of them or, where they do not fit, none.
#[tactic(auto, using(writing::proofs::Sets::length_tlv, writing::proofs::Sets::put_nothing))]
pub fn put_entry(out: &mut [u8], at: usize, tlv: TlvEntry, buffer: &[u8])
    ensures { out.new ≡ put_at out.old at (one_tlv buffer.now tlv) }
{
    if fits(out.len(), at, value_length(tlv.value, buffer)) {
        put_parts(out, at, tlv, buffer);
    }
}

// Whether type, length and a value of so many bytes fit between a place and the output's end.
fn fits(room: usize, at: usize, count: usize) -> bool
    ensures { result ≡ leb (4 + count) (room - at) }
{
    at <= room && 4 <= room - at && count <= room - at - 4
}

#[tactic(auto, unfolding(wire::specs::Bytes::be))]
fn value_length(value: TlvValue, buffer: &[u8]) -> usize
    ensures { result ≡ length (value_bytes buffer.now value) }
{
    match value {
        TlvValue::Part(view) => view.part(buffer).len(),
        TlvValue::Number(_) => 2,
    }
}

#[tactic(auto, using(writing::proofs::Sets::length_tlv, writing::proofs::Sets::put_three))]
fn put_parts(out: &mut [u8], at: usize, tlv: TlvEntry, buffer: &[u8])
    requires { at + length (one_tlv buffer.now tlv) ≤ length out.old }
    ensures { out.new ≡ put_at out.old at (one_tlv buffer.now tlv) }
{
    tlv.kind.put(out, at);
    tlv.size.put(out, at + 2);
    put_value(out, at + 4, tlv.value, buffer);
}

fn put_value(out: &mut [u8], at: usize, value: TlvValue, buffer: &[u8])
    ensures { out.new ≡ put_at out.old at (value_bytes buffer.now value) }
{
    match value {
        TlvValue::Part(view) => writing::put_bytes(out, at, view.part(buffer)),
        TlvValue::Number(number) => number.put(out, at),
    }
}

// Writing the table of a body, entry after entry: what every writer of a list shares.
#![tactic(auto)]

ghost use Rattle.std.specs.Prelude.{◌≡◌, ℕ, ◌+◌, ◌≤◌, Bool, true, List, length};
ghost use Rattle.std.proofs.lemmas.List.Edits.{sets};
ghost use Rattle.writing.specs.Write.{put_at, write_answer};
ghost use Rattle.writing.specs.Table.{joined, all_ok, sizes, Bodied};
ghost use Rattle.table_writer.specs.Writer.{writer_of, table_answer, table_written, fits, all_put};

use wire::Refusal;

// A kind of table: how its entries are judged, measured and put. The entries are of another crate than the writer that says it, and a trait of
// this crate can be met there by a type of the writer's own alone: so the kind is a type, and not the entry.
pub trait Table {
    type Entry: Copy;

    ghost Item: { Type 0 };

    ghost part: { List ℕ → Self.Entry → Item };

    ghost put_item: { Item → List ℕ → List ℕ };

    ghost ok: { ℕ → ℕ → Self.Entry → Bool };

    ghost size: { Self.Entry → ℕ };

    ghost one: { List ℕ → Self.Entry → List ℕ };

    // Whether an entry can be written from a buffer of this length, with so many entries after it.
    fn is_writable(entry: Self::Entry, buffer_length: usize, after: usize) -> bool
        ensures { result ≡ ok buffer_length after entry };

    // How many bytes it takes.
    fn length(entry: Self::Entry) -> usize
        ensures { (result ≡ size entry) × (result ≤ 65539) };

    // Puts its bytes, its view pointing into the buffer, at a place of the output.
    fn put(out: &mut [u8], at: usize, entry: Self::Entry, buffer: &[u8])
        requires { at + length (one buffer.now entry) ≤ length out.old }
        ensures { out.new ≡ put_at out.old at (one buffer.now entry) };

    ghost bodied: { Bodied (writer_of Self.Entry Item part put_item ok size) one };
}

// Writes entries, whose views point into the buffer, behind so many bytes of the output, which stay as they are for the caller to put, and
// which the answer counts too. The table is judged and measured in one pass and put in a second.
pub fn write<T: Table>(
    front: usize,
    entries: &[T::Entry],
    buffer: &[u8],
    out: &mut [u8],
) -> Result<usize, Refusal>
    ensures answered { result ≡ table_answer (writer_of T.Entry T.Item T.part T.put_item T.ok T.size) front entries.now buffer.now out.old }
    ensures left { out.new ≡ table_written (writer_of T.Entry T.Item T.part T.put_item T.ok T.size) front entries.now buffer.now out.old }
{
    let length = answer::<T>(front, entries, buffer.len(), out.len())?;
    put_each::<T>(out, front, entries, buffer);
    Ok(length)
}

// How many bytes front and entries take, or why nothing is written. Past the limit no more is added: the answer is the same, and no sum wraps.
#[tactic(auto, using(crate::proofs::Passes::same_answer))]
pub fn answer<T: Table>(
    front: usize,
    entries: &[T::Entry],
    buffer_length: usize,
    room: usize,
) -> Result<usize, Refusal>
    ensures { let W = writer_of T.Entry T.Item T.part T.put_item T.ok T.size in result ≡ write_answer (all_ok W buffer_length entries.now) (front + sizes W entries.now) room }
{
    let mut length = front;
    for (i, entry) in entries.iter().enumerate() {
        if !T::is_writable(*entry, buffer_length, entries.len() - i - 1) {
            return writing::write_answer(false, 0, room);
        }
        if length <= wire::LIMIT {
            length += T::length(*entry);
        }
    }
    writing::write_answer(true, length, room)
}

// Puts entries one behind the other, from a place of the output on, with no limit but the output's end: where one cannot be written, or they
// do not all fit, nothing changes.
pub fn put_all<T: Table>(out: &mut [u8], from: usize, entries: &[T::Entry], buffer: &[u8])
    ensures { out.new ≡ all_put (writer_of T.Entry T.Item T.part T.put_item T.ok T.size) from entries.now buffer.now out.old }
{
    if fits::<T>(from, entries, buffer.len(), out.len()) {
        put_each::<T>(out, from, entries, buffer);
    }
}

// Whether each entry can be written, and all of them fit between a place and the end of the room.
fn fits<T: Table>(from: usize, entries: &[T::Entry], buffer_length: usize, room: usize) -> bool
    ensures { result ≡ fits (writer_of T.Entry T.Item T.part T.put_item T.ok T.size) from entries.now buffer_length room }
{
    let Some(mut left) = room.checked_sub(from) else {
        return false;
    };
    for (i, entry) in entries.iter().enumerate() {
        let length = T::length(*entry);
        let after = entries.len() - i - 1;
        if left < length || !T::is_writable(*entry, buffer_length, after) {
            return false;
        }
        left -= length;
    }
    true
}

// Puts writable entries one behind the other, from a place of the output on.
fn put_each<T: Table>(out: &mut [u8], from: usize, entries: &[T::Entry], buffer: &[u8])
    requires writable { all_ok (writer_of T.Entry T.Item T.part T.put_item T.ok T.size) (length buffer.now) entries.now ≡ true }
    requires room { from + sizes (writer_of T.Entry T.Item T.part T.put_item T.ok T.size) entries.now ≤ length out.old }
    ensures { out.new ≡ sets out.old from (joined (writer_of T.Entry T.Item T.part T.put_item T.ok T.size) buffer.now entries.now) }
{
    let mut at = from;
    for entry in entries {
        T::put(out, at, *entry, buffer);
        at += T::length(*entry);
    }
}

// What a BMP stream holds, as text: a line for each message.
#![tactic(auto)]

ghost use Rattle.std.specs.Prelude.{◌≡◌, true, [], ◌∷◌, ◌++◌, ◌+◌, ◌≤◌, length, drop};
ghost use Rattle.writing.specs.Write.{Wrote};
ghost use Rattle.decimal.specs.Decimal.{decimal};
ghost use Rattle.message_answer.specs.Answer.{number};
ghost use Rattle.listing.specs.Text.{answer_text, message_line, refused_line, end_line};
ghost use Rattle.listing.specs.Listing.{longest, enough, text};
ghost use Rattle.listing.specs.Steps.{lines_from, row_at, Puts};

use common_header::COMMON_HEADER;
use numbers_writer::PutNumber;
use splitter::Split;
use wire::Refusal;

// The longest stream that is listed.
pub const LONGEST: usize = 65_536;

// An output of this size has room for every listing.
pub const ENOUGH: usize = 196_656;

// What the line of a message says behind its place: the type, the length, and the number that it is answered with, or none where it is skipped.
#[derive(Clone, Copy)]
struct Row {
    kind: u8,
    msg_len: u32,
    answer: Option<u8>,
}

// Lists the messages of a stream of at most 65,536 bytes, all of the text or, where the output is too short for it, none.
pub fn list_messages(s: &[u8], out: &mut [u8]) -> Result<usize, Refusal>
    ensures { Wrote true (text s.now) out.old result out.new }
{
    if ENOUGH <= out.len() {
        return Ok(put_text(s, out));
    }
    let mut nowhere = [0u8; 0];
    let length = put_text(s, &mut nowhere);
    writing::write_answer(true, length, out.len())?;
    Ok(put_text(s, out))
}

// Each put answers the place after its text, also where the output has no room for it.
fn put_text(s: &[u8], out: &mut [u8]) -> usize
    ensures value { result ≡ length (text s.now) }
    ensures puts { Puts out.old 0 (text s.now) out.new }
{
    writing::put_bytes(out, 0, b"place type length answer\n");
    if LONGEST < s.len() {
        return put_refusal(out, 25, 0, wire::TOO_LONG);
    }
    put_lines(s, out, 25)
}

fn put_lines(s: &[u8], out: &mut [u8], start: usize) -> usize
    requires s_len_bound { length s.now ≤ longest }
    requires s_bound { start + length (lines_from (length s.now) 0 s.now) ≤ enough }
    ensures value { result ≡ start + length (lines_from (length s.now) 0 s.now) }
    ensures puts { Puts out.old start (lines_from (length s.now) 0 s.now) out.new }
{
    let mut at: usize = 0;
    let mut to = start;
    while at < s.len() {
        let row = match row_at(s, at) {
            Ok(row) => row,
            Err(refusal) => return put_refusal(out, to, at, refusal.number),
        };
        to = put_message_line(out, to, at, row);
        at += row.msg_len as usize;
    }
    put_end_line(out, to, at)
}

// The row of the message that stands at a place, or why none is split off there.
fn row_at(s: &[u8], at: usize) -> Result<Row, Refusal>
    requires { at ≤ length s.now }
    ensures { result ≡ row_at (drop at s.now) }
{
    let rest = &s[at..];
    match splitter::split_message(rest)? {
        Split::Message(header, message) => {
            let msg_type = header.msg_type;
            let whole = message.part(rest);
            let answer = message_answer::answer_of(msg_type, &whole[COMMON_HEADER..]);
            Ok(Row {
                kind: common_header::kind_of(msg_type),
                msg_len: header.msg_len,
                answer: Some(number_of(answer)),
            })
        }
        Split::Skipped(fields, _) => Ok(Row {
            kind: fields.kind,
            msg_len: fields.msg_len,
            answer: None,
        }),
    }
}

fn number_of(answer: Result<(), Refusal>) -> u8
    ensures { result ≡ number answer }
{
    match answer {
        Ok(()) => wire::GOOD,
        Err(refusal) => refusal.number,
    }
}

fn put_message_line(out: &mut [u8], at: usize, place: usize, row: Row) -> usize
    requires { at + length (message_line place row.kind row.msg_len row.answer) ≤ enough }
    ensures value { result ≡ at + length (message_line place row.kind row.msg_len row.answer) }
    ensures puts { Puts out.old at (message_line place row.kind row.msg_len row.answer) out.new }
{
    let after_place = put_field(out, at, place, b' ');
    let after_kind = put_field(out, after_place, row.kind as usize, b' ');
    let after_length = put_field(out, after_kind, row.msg_len as usize, b' ');
    put_answer(out, after_length, row.answer)
}

// The last field of a message's line, with the newline.
fn put_answer(out: &mut [u8], at: usize, answer: Option<u8>) -> usize
    requires { at + length (answer_text answer ++ (10 ∷ [])) ≤ enough }
    ensures value { result ≡ at + length (answer_text answer ++ (10 ∷ [])) }
    ensures puts { Puts out.old at (answer_text answer ++ (10 ∷ [])) out.new }
{
    match answer {
        Some(number) => put_field(out, at, number as usize, b'\n'),
        None => {
            writing::put_bytes(out, at, b"skip\n");
            at + 5
        }
    }
}

// The line of the splitter's refusal, and the last line, which has the same place.
fn put_refusal(out: &mut [u8], at: usize, place: usize, number: u8) -> usize
    requires { at + length (refused_line place number ++ end_line place) ≤ enough }
    ensures value { result ≡ at + length (refused_line place number ++ end_line place) }
    ensures puts { Puts out.old at (refused_line place number ++ end_line place) out.new }
{
    let after_place = put_field(out, at, place, b' ');
    writing::put_bytes(out, after_place, b"- - ");
    let after_number = put_field(out, after_place + 4, number as usize, b'\n');
    put_end_line(out, after_number, place)
}

fn put_end_line(out: &mut [u8], at: usize, place: usize) -> usize
    requires { at + length (end_line place) ≤ enough }
    ensures value { result ≡ at + length (end_line place) }
    ensures puts { Puts out.old at (end_line place) out.new }
{
    writing::put_bytes(out, at, b"end ");
    put_field(out, at + 4, place, b'\n')
}

// A number, and the byte that ends its field.
fn put_field(out: &mut [u8], at: usize, n: usize, after: u8) -> usize
    requires { at + length (decimal n ++ (after ∷ [])) ≤ enough }
    ensures value { result ≡ at + length (decimal n ++ (after ∷ [])) }
    ensures puts { Puts out.old at (decimal n ++ (after ∷ [])) out.new }
{
    let next = at + decimal::put_decimal(out, at, n);
    after.put(out, next);
    next + 1
}

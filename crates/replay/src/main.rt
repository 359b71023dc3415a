// Puts each line of standard input to a reader, a writer or the splitter, and answers it with a line (docs/REPLAY.md).
#![tactic(auto)]

use std::io;
use std::io::Read;
use trial_forms::{Arguments, Form, Kind};
use trial_input::Input;
use trial_line::{BadLine, Command, Verb};

// `rewrite-peerup afi=4,asn=16,type=0 ` and a text of 131,072 characters.
const LONGEST_LINE: usize = 131_107;

// The most bytes that a line's text writes: one more than a reader takes.
const MOST_BYTES: usize = 1_048_577;

// Two digits for each byte, and what a table's entries have beside them.
const LONGEST_ANSWER: usize = 2_101_248;

fn main(rt: HostRuntime) -> io::Result<()> {
    let mut piece = [0u8; 65_536];
    // One byte more than the longest line: what fills it is no good line, however it goes on.
    let mut line = [0u8; LONGEST_LINE + 1];
    let mut bytes = [0u8; MOST_BYTES];
    let mut room = [0u8; MOST_BYTES + 2];
    let mut out = [0u8; LONGEST_ANSWER];
    answer_lines(
        &rt,
        &mut rt.reader(),
        &mut piece,
        &mut line,
        &mut bytes,
        &mut room,
        &mut out,
    )
}

fn answer_lines(
    rt: &impl Print,
    reader: &mut impl Read,
    piece: &mut [u8],
    line: &mut [u8],
    bytes: &mut [u8],
    room: &mut [u8],
    out: &mut [u8],
) -> io::Result<()> {
    let mut input = trial_input::no_input();
    for _ in 0..trial_input::NO_END {
        input = answer_line(rt, reader, input, piece, line, bytes, room, out)?;
        if input.ended {
            return Ok(());
        }
    }
    Ok(())
}

fn answer_line(
    rt: &impl Print,
    reader: &mut impl Read,
    before: Input,
    piece: &mut [u8],
    line: &mut [u8],
    bytes: &mut [u8],
    room: &mut [u8],
    out: &mut [u8],
) -> io::Result<Input> {
    let input = trial_input::read_line(reader, before, piece, line)?;
    let length = input.line_length;
    let asked = trial_line::ask(trial_input::front(line, length), bytes);
    let end = put_asked(out, asked, bytes, room);
    trial_input::write(rt, trial_input::front(out, end))?;
    Ok(input)
}

fn put_asked(
    out: &mut [u8],
    asked: Result<Option<(Command, usize)>, BadLine>,
    bytes: &[u8],
    room: &mut [u8],
) -> usize {
    match asked {
        Ok(None) => 0,
        Ok(Some((command, count))) => {
            put_answer(out, command, trial_input::front(bytes, count), room)
        }
        Err(BadLine) => trial_forms::put(out, 0, trial_forms::bare(Form::BadLine as usize), b""),
    }
}

fn put_answer(out: &mut [u8], command: Command, body: &[u8], room: &mut [u8]) -> usize {
    match command.verb {
        Verb::Read(kind) => put_read(out, kind, command.arguments, body),
        Verb::Rewrite(kind) => put_rewritten(out, kind, command.arguments, body, room),
        Verb::Split => trial_forms::put(out, 0, trial_readers::split(body), body),
        Verb::Equal => trial_forms::put(out, 0, trial_entries::equal(body), body),
    }
}

fn put_read(out: &mut [u8], kind: Kind, arguments: Arguments, body: &[u8]) -> usize {
    let found = trial_readers::read(kind, arguments, body);
    let mut next = trial_forms::put(out, 0, found, body);
    if !trial_forms::begins_table(found.form) {
        return next;
    }
    for i in 0..found.count {
        let entry = trial_entries::entry(kind, arguments, body, i);
        next = trial_forms::put(out, next, entry, body);
    }
    trial_forms::put(out, next, trial_forms::bare(Form::TableEnd as usize), body)
}

// A record that the reader refuses is not written.
fn put_rewritten(
    out: &mut [u8],
    kind: Kind,
    arguments: Arguments,
    body: &[u8],
    room: &mut [u8],
) -> usize {
    let found = trial_readers::read(kind, arguments, body);
    if trial_forms::is_refusal(found.form) {
        return trial_forms::put(out, 0, found, body);
    }
    let tail = found.numbers[1] as usize;
    put_written(out, kind, arguments, body, output(room, tail))
}

// Two bytes more than the tail's start. A tail starts within the line's bytes, so there is always room; were there none, the writer would
// say so.
fn output(room: &mut [u8], tail: usize) -> &mut [u8] {
    if wire::left(room, tail) < 2 {
        return &mut [];
    }
    &mut room[..tail + 2]
}

// The writer's answer, and the whole of its output afterwards.
fn put_written(
    out: &mut [u8],
    kind: Kind,
    arguments: Arguments,
    body: &[u8],
    lent: &mut [u8],
) -> usize {
    trial_hex::put_untouched(lent);
    let change = trial_writers::UNCHANGED;
    let length = lent.len() as u64;
    let shown = match trial_writers::write(kind, arguments, change, body, body, lent) {
        Ok(n) => trial_forms::of_five(Form::Written as usize, 0, n as u64, 0, length, 0, 0),
        Err(refusal) => trial_forms::refused(refusal),
    };
    trial_forms::put(out, 0, shown, lent)
}

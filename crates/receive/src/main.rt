// Keeps one receiver, and answers each line of standard input with a line: a piece that it is given, or a change of what the next call finds (docs/REPLAY.md, "Receive").
#![tactic(auto)]

use receiver::{Outcome, Received, Receiver};
use std::io;
use std::io::Read;
use trial_input::Input;
use trial_line::BadLine;
use wire::View;

// `piece ` and a text of 131,072 characters.
const LONGEST_LINE: usize = 131_078;

// The most bytes that a line's text writes.
const MOST_BYTES: usize = 1_048_577;

// One byte more than a receiver's buffer, so that too much can be lent.
const ARRAY: usize = receiver::BUFFER + 1;

// Two digits for each byte of the longest message, and what stands beside them.
const LONGEST_ANSWER: usize = 2 * receiver::BUFFER + 128;

// A call or a change that a line asks for, with how many bytes its text writes or the size that it names.
#[derive(Clone, Copy)]
enum Asked {
    Piece(usize),
    Size(usize),
    Forge(usize),
    Reset,
}

// The receiver's state, and how many bytes of the array the next call is lent.
#[derive(Clone, Copy)]
struct Session {
    state: Receiver,
    lent: usize,
}

// Where the input stands after a line, and the session after its answer.
#[derive(Clone, Copy)]
struct Turn {
    input: Input,
    session: Session,
}

fn main(rt: HostRuntime) -> io::Result<()> {
    let mut chunk = [0u8; 65_536];
    // One byte more than the longest line: what fills it is no good line, however it goes on.
    let mut line = [0u8; LONGEST_LINE + 1];
    let mut bytes = [0u8; MOST_BYTES];
    let mut array = [0u8; ARRAY];
    let mut out = [0u8; LONGEST_ANSWER];
    answer_lines(
        &rt,
        &mut rt.reader(),
        &mut chunk,
        &mut line,
        &mut bytes,
        &mut array,
        &mut out,
    )
}

fn answer_lines(
    rt: &impl Print,
    reader: &mut impl Read,
    chunk: &mut [u8],
    line: &mut [u8],
    bytes: &mut [u8],
    array: &mut [u8],
    out: &mut [u8],
) -> io::Result<()> {
    let mut turn = first_turn();
    for _ in 0..trial_input::NO_END {
        turn = answer_line(rt, reader, turn, chunk, line, bytes, array, out)?;
        let input = turn.input;
        if input.ended {
            return Ok(());
        }
    }
    Ok(())
}

fn first_turn() -> Turn {
    Turn {
        input: trial_input::no_input(),
        session: Session {
            state: receiver::reset(),
            lent: receiver::BUFFER,
        },
    }
}

fn answer_line(
    rt: &impl Print,
    reader: &mut impl Read,
    before: Turn,
    chunk: &mut [u8],
    line: &mut [u8],
    bytes: &mut [u8],
    array: &mut [u8],
    out: &mut [u8],
) -> io::Result<Turn> {
    let read = before.input;
    let session = before.session;
    let input = trial_input::read_line(reader, read, chunk, line)?;
    let length = input.line_length;
    let asked = ask(trial_input::front(line, length), bytes);
    Ok(Turn {
        input,
        session: answer(rt, session, asked, bytes, array, out)?,
    })
}

// ---- a line, taken apart
// An empty line asks for nothing.
fn ask(text: &[u8], bytes: &mut [u8]) -> Result<Option<Asked>, BadLine> {
    if text.is_empty() {
        return Ok(None);
    }
    let asked = asked_by(text, bytes).ok_or(BadLine)?;
    Ok(Some(asked))
}

// A verb, and behind one space what it is about.
fn asked_by(text: &[u8], bytes: &mut [u8]) -> Option<Asked> {
    if matches!(text, b"reset") {
        return Some(Asked::Reset);
    }
    if let Some(size) = text.strip_prefix(b"size ") {
        return size_of(size).map(Asked::Size);
    }
    if let Some(piece) = text.strip_prefix(b"piece ") {
        return trial_hex::unhex(piece, bytes).map(Asked::Piece);
    }
    let held = text.strip_prefix(b"forge ")?;
    let count = trial_hex::unhex(held, bytes)?;
    if ARRAY < count {
        return None;
    }
    Some(Asked::Forge(count))
}

fn size_of(text: &[u8]) -> Option<usize> {
    if matches!(text, b"0") {
        return Some(0);
    }
    let size = trial_hex::number_of(text);
    if size == 0 || ARRAY < size {
        return None;
    }
    Some(size)
}

// ---- its answer
fn answer(
    rt: &impl Print,
    session: Session,
    asked: Result<Option<Asked>, BadLine>,
    bytes: &[u8],
    array: &mut [u8],
    out: &mut [u8],
) -> io::Result<Session> {
    match asked {
        Ok(None) => Ok(session),
        Err(BadLine) => {
            print(rt, out, b"bad line\n", &[], b"")?;
            Ok(session)
        }
        Ok(Some(Asked::Piece(count))) => {
            take_piece(rt, session, trial_input::front(bytes, count), array, out)
        }
        Ok(Some(Asked::Size(size))) => confirm(
            rt,
            out,
            Session {
                lent: size,
                ..session
            },
        ),
        Ok(Some(Asked::Forge(count))) => {
            confirm(
                rt,
                out,
                forged(session, trial_input::front(bytes, count), array),
            )
        }
        Ok(Some(Asked::Reset)) => {
            let state = receiver::reset();
            confirm(rt, out, Session { state, ..session })
        }
    }
}

fn confirm(rt: &impl Print, out: &mut [u8], changed: Session) -> io::Result<Session> {
    print(rt, out, b"ok\n", &[], b"")?;
    Ok(changed)
}

// Prints a form with its numbers (docs/REPLAY.md, "Forms").
fn print(
    rt: &impl Print,
    out: &mut [u8],
    form: &[u8],
    numbers: &[u64],
    body: &[u8],
) -> io::Result<()> {
    let end = trial_forms::put_shown(out, 0, form, numbers, body);
    trial_input::write(rt, trial_input::front(out, end))
}

// The state says that the bytes are held, as if they had been received; a refusal that stands is kept.
fn forged(session: Session, bytes: &[u8], array: &mut [u8]) -> Session {
    writing::put_bytes(array, 0, bytes);
    let state = Receiver {
        held: bytes.len(),
        ..session.state
    };
    Session { state, ..session }
}

// ---- a call
// A message's view is of what was lent, and so of the array, at whose start that stands.
fn take_piece(
    rt: &impl Print,
    session: Session,
    piece: &[u8],
    array: &mut [u8],
    out: &mut [u8],
) -> io::Result<Session> {
    let received = receiver::receive(lend(array, session.lent), session.state, piece);
    print_received(rt, out, received, array)?;
    Ok(Session {
        state: received.state,
        ..session
    })
}

// The first bytes of the array. No size is above its length; were one, the receiver would refuse what it is lent.
fn lend(array: &mut [u8], size: usize) -> &mut [u8] {
    if array.len() < size {
        return &mut array[0..0];
    }
    &mut array[0..size]
}

fn print_received(
    rt: &impl Print,
    out: &mut [u8],
    received: Received,
    array: &[u8],
) -> io::Result<()> {
    match received.outcome {
        Ok(Outcome::Waiting(_)) => {
            print(rt, out, b"took # held #\n", &numbers(received, 0, 0), array)
        }
        Ok(Outcome::Message(_, view)) => {
            print(
                rt,
                out,
                b"took # held # message $\n",
                &of_view(received, view),
                array,
            )
        }
        Ok(Outcome::Skipped(_, view)) => {
            print(
                rt,
                out,
                b"took # held # skipped $\n",
                &of_view(received, view),
                array,
            )
        }
        Err(refusal) => {
            let number = refusal.number as u64;
            let place = refusal.place as u64;
            print(
                rt,
                out,
                b"took # held # refused # at #\n",
                &numbers(received, number, place),
                array,
            )
        }
    }
}

fn of_view(received: Received, view: View) -> [u64; 4] {
    numbers(received, view.place as u64, view.length as u64)
}

// Where a form has fewer marks, the last numbers have no say.
fn numbers(received: Received, a: u64, b: u64) -> [u64; 4] {
    let state = received.state;
    [received.took as u64, state.held as u64, a, b]
}

// Messages out of a BMP session, however its bytes are cut into pieces: a lent buffer, and a small state by value.
#![tactic(auto)]

ghost use Rattle.std.specs.Prelude.{◌≡◌, [], ◌++◌, ◌+◌, ◌-◌, ◌≤◌, ◌<◌, length, take};
ghost use Rattle.std.proofs.Math.Seq.{paste};
ghost use Rattle.receiver.specs.Receive.{room, longest_piece, judge_of, holding, fresh, state_of, settled_by, taken, refused, receive_of, buffer_of};
ghost use Rattle.receiver.specs.Steps.{Held, Enters, by_room, missing_in, taken_after, first_run, refused_run};

use common_header::{BmpCommonHeader, COMMON_HEADER, CommonFields};
use splitter::Split;
use wire::{Refusal, View};

// The size of the buffer that is lent, and so the longest message that is handed out.
pub const BUFFER: usize = 65_536;

// The longest piece that a call takes.
pub const LONGEST_PIECE: usize = 4_096;

// What the bytes since the last boundary are: the start of a message, which lacks so many bytes at least; or a whole message, handed out or
// skipped as the splitter does, with its view of the buffer.
#[derive(Clone, Copy)]
pub enum Outcome {
    Waiting(usize),
    Message(BmpCommonHeader, View),
    Skipped(CommonFields, View),
}

// How many bytes at the start of the buffer are held, and the refusal that stands, where one does.
#[derive(Clone, Copy)]
pub struct Receiver {
    pub held: usize,
    pub standing: Option<Refusal>,
}

// How many bytes of the piece were taken, what the bytes since the last boundary then are or why the call is refused, and the state for
// the next call.
#[derive(Clone, Copy)]
pub struct Received {
    pub took: usize,
    pub outcome: Result<Outcome, Refusal>,
    pub state: Receiver,
}

// The state in which a session begins, and begins again after a refusal: nothing is held, and nothing stands.
pub fn reset() -> Receiver
    ensures { result ≡ fresh }
{
    holding(0)
}

// Takes bytes of a piece up to the end of at most one message. The buffer is to be the one of the calls before, as they left it; put the
// piece again from where the call stopped, until it is used up or a call is refused.
pub fn receive(buffer: &mut [u8], state: Receiver, piece: &[u8]) -> Received
    ensures value { result ≡ receive_of buffer.old state piece.now }
    ensures buffer_after { buffer.new ≡ buffer_of buffer.old state piece.now }
{
    match enter(buffer, state, piece) {
        Ok(missing) => take_in(buffer, state.held, missing, piece),
        Err(refusal) => refused(state, refusal),
    }
}

// The checks before anything is taken: what the bytes lack that are held, or why the call is refused at once. They stand apart so that their
// answers and those of a call that takes bytes do not meet in memory.
#[tactic(auto, unfolding(crate::specs::Receive::receive_of))]
fn enter(buffer: &[u8], state: Receiver, piece: &[u8]) -> Result<usize, Refusal>
    ensures { Enters buffer.now state piece.now result }
{
    let held = state.held;
    if buffer.len() != BUFFER {
        return Err(wire::refusal_at(wire::NO_ROOM, 0));
    }
    if LONGEST_PIECE < piece.len() {
        return Err(wire::refusal_at(wire::TOO_LONG, 0));
    }
    if let Some(standing) = state.standing {
        return Err(standing);
    }
    if buffer.len() < held {
        return Err(wire::refusal_at(wire::BAD_FIELD, 0));
    }
    missing_in(judge(&buffer[..held])).ok_or(wire::refusal_at(wire::BAD_FIELD, 0))
}

// A call that takes nothing and leaves the state as it was.
fn refused(state: Receiver, refusal: Refusal) -> Received
    ensures { result ≡ refused state refusal }
{
    Received {
        took: 0,
        outcome: Err(refusal),
        state,
    }
}

// ---- the bytes since the last boundary
// The splitter says what they are.
#[tactic(auto, unfolding(crate::specs::Receive::judge_of))]
fn judge(h: &[u8]) -> Result<Outcome, Refusal>
    requires { length h.now ≤ room }
    ensures { result ≡ judge_of h.now }
{
    match splitter::split_message(h) {
        Ok(Split::Message(header, message)) => Ok(Outcome::Message(header, message)),
        Ok(Split::Skipped(fields, message)) => Ok(Outcome::Skipped(fields, message)),
        Err(refusal) => judge_refusal(refusal, BUFFER - h.len()),
    }
}

// What is Cut is the start of a message, unless more is missing than the buffer has room for.
fn judge_refusal(refusal: Refusal, room: usize) -> Result<Outcome, Refusal>
    ensures { result ≡ by_room refusal room }
{
    if refusal.number != wire::CUT {
        return Err(refusal);
    }
    if room < refusal.missing {
        return Err(wire::refusal_at(wire::STREAM_TOO_BIG, 1));
    }
    Ok(Outcome::Waiting(refusal.missing))
}

// How many bytes those lack that wait for more.
fn missing_in(outcome: Result<Outcome, Refusal>) -> Option<usize>
    ensures { result ≡ missing_in outcome }
{
    match outcome {
        Ok(Outcome::Waiting(missing)) => Some(missing),
        _ => None,
    }
}

// So many bytes are held, and no refusal stands.
fn holding(held: usize) -> Receiver
    ensures { result ≡ holding held }
{
    Receiver {
        held,
        standing: None,
    }
}

fn state_of(held: usize, outcome: Result<Outcome, Refusal>) -> Receiver
    ensures { result ≡ state_of held outcome }
{
    match outcome {
        Ok(Outcome::Waiting(_)) => holding(held),
        Ok(Outcome::Message(_, _) | Outcome::Skipped(_, _)) => holding(0),
        Err(refusal) => Receiver {
            held,
            standing: Some(refusal),
        },
    }
}

// ---- the bytes of a piece, in runs: at a boundary up to the message's end; else the header's rest, and then the body's
fn take_in(buffer: &mut [u8], held: usize, missing: usize, piece: &[u8]) -> Received
    requires held { Held buffer.old held missing }
    requires piece_len_bound { length piece.now ≤ longest_piece }
    ensures value { result ≡ taken (take held buffer.old) piece.now }
    ensures buffer_after { buffer.new ≡ paste buffer.old held piece.now result.took }
{
    if held == 0 {
        return take_first(buffer, piece);
    }
    if held < COMMON_HEADER {
        return take_header(buffer, held, missing, piece);
    }
    take_body(buffer, held, missing, piece, 0)
}

// At a boundary the piece is judged where it stands, and what is taken of it is one copy.
fn take_first(buffer: &mut [u8], piece: &[u8]) -> Received
    requires { (length buffer.old ≡ room) × (length piece.now ≤ longest_piece) }
    ensures value { result ≡ taken [] piece.now }
    ensures buffer_after { buffer.new ≡ paste buffer.old 0 piece.now result.took }
{
    let outcome = judge(piece);
    let run = first_run(outcome, piece.len());
    writing::put_bytes(buffer, 0, &piece[..run]);
    settle(run, run, outcome)
}

// All that waits, or a message, or what brings a refusal: a first byte that is no version, else the six of a header.
fn first_run(outcome: Result<Outcome, Refusal>, there: usize) -> usize
    ensures { result ≡ first_run outcome there }
{
    match outcome {
        Ok(Outcome::Waiting(_)) => there,
        Ok(Outcome::Message(_, message) | Outcome::Skipped(_, message)) => message.length,
        Err(refusal) => refused_run(refusal.number),
    }
}

fn refused_run(number: u8) -> usize
    ensures { result ≡ refused_run number }
{
    if number == wire::BAD_VERSION {
        1
    } else {
        COMMON_HEADER
    }
}

// A header that is not whole yet is judged when its sixth byte is there; what then waits goes on with the body.
fn take_header(buffer: &mut [u8], held: usize, missing: usize, piece: &[u8]) -> Received
    requires held { Held buffer.old held missing }
    requires held_nonzero { (0 < held) × ((held < 6) × (length piece.now ≤ longest_piece)) }
    ensures value { result ≡ taken (take held buffer.old) piece.now }
    ensures buffer_after { buffer.new ≡ paste buffer.old held piece.now result.took }
{
    let run = (COMMON_HEADER - held).min(piece.len());
    let outcome = put_run(buffer, held, &piece[..run]);
    let Some(missing_now) = missing_in(outcome) else {
        return settle(run, held + run, outcome);
    };
    take_body(buffer, held + run, missing_now, &piece[run..], run)
}

// The rest of a piece, of which so many bytes were taken before. What is still not whole waits as before, so only a whole message is judged.
fn take_body(buffer: &mut [u8], held: usize, missing: usize, rest: &[u8], before: usize) -> Received
    requires held { Held buffer.old held missing }
    requires le_held { (0 < length rest.now → 6 ≤ held) × (before + length rest.now ≤ longest_piece) }
    ensures value { result ≡ taken_after before (take held buffer.old) rest.now }
    ensures buffer_after { buffer.new ≡ paste buffer.old held rest.now (result.took - before) }
{
    let there = rest.len();
    if there < missing {
        writing::put_bytes(buffer, held, rest);
        return settle(
            before + there,
            held + there,
            Ok(Outcome::Waiting(missing - there)),
        );
    }
    let outcome = put_run(buffer, held, &rest[..missing]);
    settle(before + missing, held + missing, outcome)
}

// One copy, and one judgement of what is then held.
#[tactic(auto, using(crate::proofs::Taking::was_put))]
fn put_run(buffer: &mut [u8], held: usize, run: &[u8]) -> Result<Outcome, Refusal>
    requires { (length buffer.old ≡ room) × (held + length run.now ≤ room) }
    ensures value { result ≡ judge_of (take held buffer.old ++ run.now) }
    ensures buffer_after { buffer.new ≡ paste buffer.old held run.now (length run.now) }
{
    writing::put_bytes(buffer, held, run);
    judge(&buffer[..held + run.len()])
}

fn settle(took: usize, held: usize, outcome: Result<Outcome, Refusal>) -> Received
    ensures { result ≡ settled_by took held outcome }
{
    Received {
        took,
        outcome,
        state: state_of(held, outcome),
    }
}

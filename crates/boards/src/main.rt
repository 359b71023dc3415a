// Keeps one board, and answers each line of standard input with a line: a call, a lookup, or the peers that are on it (docs/REPLAY.md, "Boards").
#![tactic(auto)]

use board::{Board, BoardRefusal};
use kept_report::{KeptCounter, KeptData, KeptReport};
use models::Afi;
use numbers::WireNumber;
use peer_key::PeerKey;
use std::io;
use std::io::Read;
use trial_forms::{Form, Shown};
use trial_line::BadLine;
use wire::Refusal;

// `report ` and a text of 131,072 characters.
const LONGEST_LINE: usize = 131_079;

// The most bytes that a line's text writes: one more than a reader takes.
const MOST_BYTES: usize = 1_048_577;

// More than 64 peers or 64 counters take.
const LONGEST_ANSWER: usize = 8_192;

// What stands behind a header starts here.
const BODY_AT: usize = 42;

// What a line asks for; a call and a lookup with how many bytes the line's text writes.
#[derive(Clone, Copy)]
enum Asked {
    Clear,
    List,
    Up(usize),
    Down(usize),
    Report(usize),
    Show(usize),
}

fn main(rt: HostRuntime) -> io::Result<()> {
    let mut piece = [0u8; 65_536];
    // One byte more than the longest line: what fills it is no good line, however it goes on.
    let mut line = [0u8; LONGEST_LINE + 1];
    let mut bytes = [0u8; MOST_BYTES];
    let mut out = [0u8; LONGEST_ANSWER];
    answer_lines(
        &rt,
        &mut rt.reader(),
        &mut piece,
        &mut line,
        &mut bytes,
        &mut out,
    )
}

fn answer_lines(
    rt: &impl Print,
    reader: &mut impl Read,
    piece: &mut [u8],
    line: &mut [u8],
    bytes: &mut [u8],
    out: &mut [u8],
) -> io::Result<()> {
    let mut input = trial_input::no_input();
    let mut board = board::empty();
    for _ in 0..trial_input::NO_END {
        input = trial_input::read_line(reader, input, piece, line)?;
        let asked = ask(trial_input::front(line, input.line_length), bytes);
        answer(rt, &mut board, asked, bytes, out)?;
        if input.ended {
            return Ok(());
        }
    }
    Ok(())
}

// ---- a line, taken apart
// A verb alone, or a verb and behind one space the text of its bytes. An empty line asks for nothing.
fn ask(text: &[u8], bytes: &mut [u8]) -> Result<Option<Asked>, BadLine> {
    if text.is_empty() {
        return Ok(None);
    }
    let space = trial_hex::place_of(text, b' ');
    if text.len() <= space {
        return alone(text).map(Some);
    }
    let count = trial_hex::unhex(&text[space + 1..], bytes).ok_or(BadLine)?;
    with_bytes(&text[..space], count).map(Some)
}

fn alone(verb: &[u8]) -> Result<Asked, BadLine> {
    let words = b"clear         \
        list          ";
    match trial_line::place_among(words, verb) {
        0 => Ok(Asked::Clear),
        1 => Ok(Asked::List),
        _ => Err(BadLine),
    }
}

fn with_bytes(verb: &[u8], count: usize) -> Result<Asked, BadLine> {
    let words = b"up            \
        down          \
        report        \
        show          ";
    match trial_line::place_among(words, verb) {
        0 => Ok(Asked::Up(count)),
        1 => Ok(Asked::Down(count)),
        2 => Ok(Asked::Report(count)),
        3 => Ok(Asked::Show(count)),
        _ => Err(BadLine),
    }
}

// ---- its answer
fn answer(
    rt: &impl Print,
    board: &mut Board,
    asked: Result<Option<Asked>, BadLine>,
    bytes: &[u8],
    out: &mut [u8],
) -> io::Result<()> {
    let Ok(asked) = asked else {
        return print(rt, out, trial_forms::bare(Form::BadLine as usize));
    };
    match asked {
        None => Ok(()),
        Some(Asked::Clear) => {
            *board = board::empty();
            print(rt, out, trial_forms::bare(Form::Done as usize))
        }
        Some(Asked::List) => print_peers(rt, out, &board.places),
        Some(Asked::Up(count)) => print_done(rt, out, up(board, trial_input::front(bytes, count))),
        Some(Asked::Down(count)) => {
            print_done(rt, out, down(board, trial_input::front(bytes, count)))
        }
        Some(Asked::Report(count)) => {
            print_done(rt, out, report(board, trial_input::front(bytes, count)))
        }
        Some(Asked::Show(count)) => {
            print_lookup(rt, out, *board, trial_input::front(bytes, count))
        }
    }
}

fn print(rt: &impl Print, out: &mut [u8], shown: Shown) -> io::Result<()> {
    let end = trial_forms::put(out, 0, shown, b"");
    trial_input::write(rt, trial_input::front(out, end))
}

fn print_done(rt: &impl Print, out: &mut [u8], done: Result<(), Refusal>) -> io::Result<()> {
    match done {
        Ok(()) => print(rt, out, trial_forms::bare(Form::Done as usize)),
        Err(refusal) => print(rt, out, trial_forms::refused(refusal)),
    }
}

// ---- the calls: each reads header and body, and lends the board
fn up(board: &mut Board, s: &[u8]) -> Result<(), Refusal> {
    let header = per_peer_header::parse_per_peer_header(s)?.header;
    let (afi, peer_type) = (header.afi(), header.peer_type);
    let body = peer_up_notification::parse_peer_up_notification(behind(s), afi, peer_type).map_err(
        trial_entries::behind_header,
    )?;
    let (answer, next) = trial_board::lend_up(*board, header, body.message);
    *board = next;
    answer.map_err(refusal_of)
}

fn down(board: &mut Board, s: &[u8]) -> Result<(), Refusal> {
    let header = per_peer_header::parse_per_peer_header(s)?.header;
    let (notification, _) = peer_down_notification::parse_peer_down_notification(behind(s)).map_err(
        trial_entries::behind_header,
    )?;
    let (answer, next) = trial_board::lend_down(*board, header, notification);
    *board = next;
    answer.map_err(refusal_of)
}

fn report(board: &mut Board, s: &[u8]) -> Result<(), Refusal> {
    let header = per_peer_header::parse_per_peer_header(s)?.header;
    let body = stats_report::parse_stats_report(behind(s)).map_err(trial_entries::behind_header)?;
    let (answer, next) = trial_board::lend_report(*board, header, body.report);
    *board = next;
    answer.map_err(refusal_of)
}

fn behind(s: &[u8]) -> &[u8] {
    s.get(BODY_AT..).unwrap_or(&[])
}

// A board's refusal is of the whole line.
fn refusal_of(refused: BoardRefusal) -> Refusal {
    wire::refusal_at(refused.number(), 0)
}

// ---- a lookup
fn print_lookup(rt: &impl Print, out: &mut [u8], board: Board, s: &[u8]) -> io::Result<()> {
    match looked_up(board, s) {
        Err(refusal) => print(rt, out, trial_forms::refused(refusal)),
        Ok(None) => print(rt, out, trial_forms::bare(Form::NoneYet as usize)),
        Ok(Some(report)) => print_report(rt, out, report),
    }
}

fn looked_up(board: Board, s: &[u8]) -> Result<Option<KeptReport>, Refusal> {
    let header = per_peer_header::parse_per_peer_header(s)?.header;
    trial_board::lend_look(board, peer_key::key_of(header)).map_err(refusal_of)
}

fn print_report(rt: &impl Print, out: &mut [u8], report: KeptReport) -> io::Result<()> {
    let count = report.count;
    let mut next = trial_forms::put(out, 0, counted(Form::Report, count as u64), b"");
    for (i, counter) in report.counters.iter().take(count).enumerate() {
        next = trial_forms::put(out, next, counter_shown(i as u64, *counter), b"");
    }
    print_end(rt, out, next)
}

fn counted(form: Form, count: u64) -> Shown {
    trial_forms::of_five(form as usize, 0, count, 0, 0, 0, 0)
}

fn print_end(rt: &impl Print, out: &mut [u8], at: usize) -> io::Result<()> {
    let end = trial_forms::put(out, at, trial_forms::bare(Form::TableEnd as usize), b"");
    trial_input::write(rt, trial_input::front(out, end))
}

// By the forms of a report's own counters: a raw value whose bytes are gone is an empty one.
fn counter_shown(i: u64, counter: KeptCounter) -> Shown {
    let kind = counter.kind as u64;
    let size = counter.stat_len as u64;
    let name = trial_entries::stat_name(counter.stat_type());
    let (form, a, b, c) = match counter.stat_data() {
        KeptData::Counter(n) => (Form::Counter, n as u64, 0, 0),
        KeptData::Gauge(n) => (Form::Gauge, n, 0, 0),
        KeptData::AfiSafiGauge(afi, safi, n) => (Form::AfiSafiGauge, afi as u64, safi as u64, n),
        KeptData::Raw => (Form::Raw, 0, 0, 0),
    };
    trial_entries::of_seven(form as usize, i, kind, size, name, a, b, c)
}

// ---- the peers on the board
fn print_peers(
    rt: &impl Print,
    out: &mut [u8],
    places: &[Option<PeerKey>; board::PEER_PLACES],
) -> io::Result<()> {
    let used = places.iter().filter(|place| place.is_some()).count();
    let mut next = trial_forms::put(out, 0, counted(Form::Peers, used as u64), b"");
    let mut shown: u64 = 0;
    for place in places.iter() {
        if let Some(key) = place {
            next = trial_forms::put(out, next, peer_shown(shown, *key), b"");
            shown = shown.wrapping_add(1);
        }
    }
    print_end(rt, out, next)
}

fn peer_shown(i: u64, key: PeerKey) -> Shown {
    let octets = key.octets;
    trial_entries::of_seven(
        Form::Peer as usize,
        i,
        key.peer_type.number() as u64,
        family(key.afi),
        key.peer_distinguisher.0,
        u64::read_at(&octets, 0),
        u64::read_at(&octets, 8),
        key.peer_bgp_id.0 as u64,
    )
}

fn family(afi: Afi) -> u64 {
    match afi {
        Afi::Ipv4 => 4,
        Afi::Ipv6 => 6,
    }
}

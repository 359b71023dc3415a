// Writes the record of each line of standard input into longer and shorter outputs, one byte too long, and with each fault that it can have, and says
// what came of it (docs/REPLAY.md, "Records").
#![tactic(auto)]

use std::io;
use std::io::Read;
use trial_forms::{Arguments, Kind};
use trial_input::Input;
use trial_line::{BadLine, Command, Verb};
use wire::Refusal;

const LONGEST_LINE: usize = 131_107;

// One byte more than a slice may have.
const ROOM: usize = 1_048_577;

// A line of fewer bytes has its record changed.
const SMALL: usize = 65_536;

// What stands in an output before it is lent to a writer.
const UNTOUCHED: u8 = 0xA5;

fn main(rt: HostRuntime) -> io::Result<()> {
    let mut piece = [0u8; 4_096];
    let mut line = [0u8; LONGEST_LINE + 1];
    let mut bytes = [0u8; ROOM];
    let mut out = [0u8; ROOM];
    try_lines(
        &rt,
        &mut rt.reader(),
        &mut piece,
        &mut line,
        &mut bytes,
        &mut out,
    )
}

fn try_lines(
    rt: &impl Print,
    reader: &mut impl Read,
    piece: &mut [u8],
    line: &mut [u8],
    bytes: &mut [u8],
    out: &mut [u8],
) -> io::Result<()> {
    let mut input = trial_input::no_input();
    for _ in 0..trial_input::NO_END {
        input = try_next(rt, reader, input, piece, line, bytes, out)?;
        if input.ended {
            return Ok(());
        }
    }
    Ok(())
}

fn try_next(
    rt: &impl Print,
    reader: &mut impl Read,
    before: Input,
    piece: &mut [u8],
    line: &mut [u8],
    bytes: &mut [u8],
    out: &mut [u8],
) -> io::Result<Input> {
    let input = trial_input::read_line(reader, before, piece, line)?;
    let length = input.line_length;
    try_line(rt, trial_input::front(line, length), bytes, out)?;
    Ok(input)
}

// Lines of every verb but `rewrite-` have no record to write.
fn try_line(rt: &impl Print, line: &[u8], bytes: &mut [u8], out: &mut [u8]) -> io::Result<()> {
    match trial_line::ask(line, bytes) {
        Ok(None) => Ok(()),
        Ok(
            Some(
                (
                    Command {
                        verb: Verb::Rewrite(kind),
                        arguments,
                        ..
                    },
                    count,
                ),
            ),
        ) => try_record(rt, line, kind, arguments, count, bytes, out),
        Ok(Some(_)) | Err(BadLine) => println!(rt; "bad line"),
    }
}

fn try_record(
    rt: &impl Print,
    line: &[u8],
    kind: Kind,
    arguments: Arguments,
    count: usize,
    bytes: &[u8],
    out: &mut [u8],
) -> io::Result<()> {
    try_rooms(rt, line, kind, arguments, count, bytes, out)?;
    if count < SMALL {
        try_changes(rt, line, kind, arguments, count, bytes, out)?;
        try_values(rt, kind, trial_input::front(bytes, count), bytes.len())?;
    }
    Ok(())
}

// Outputs of four lengths for the record as it is, and two for one that is a byte too long, where it can be made that long.
fn try_rooms(
    rt: &impl Print,
    line: &[u8],
    kind: Kind,
    arguments: Arguments,
    count: usize,
    bytes: &[u8],
    out: &mut [u8],
) -> io::Result<()> {
    let cases = cases_of(count);
    for case in 0..cases {
        trial_hex::put_untouched(out);
        print_heading(rt, line, case, count)?;
        let room = room_of(case, count);
        let answer = write(kind, arguments, change_of(case), count, room, bytes, out);
        print_written(rt, answer, bytes, out)?;
    }
    Ok(())
}

// A record of as many bytes as a slice may have, and one more, is too long.
fn cases_of(count: usize) -> usize {
    if count == wire::LIMIT { 6 } else { 4 }
}

fn change_of(case: usize) -> u8 {
    if case < 4 {
        return trial_changes::UNCHANGED;
    }
    trial_changes::LONGER
}

// One byte more than is written, exactly as many, one less, and none; for a record that is too long, room enough and none: it is refused before the
// room is looked at.
fn room_of(case: usize, count: usize) -> usize {
    match case {
        0 => count.wrapping_add(1),
        1 => count,
        2 => count.saturating_sub(1),
        4 => ROOM,
        _ => 0,
    }
}

// Each change of the record's kind, with all the room there is.
fn try_changes(
    rt: &impl Print,
    line: &[u8],
    kind: Kind,
    arguments: Arguments,
    count: usize,
    bytes: &[u8],
    out: &mut [u8],
) -> io::Result<()> {
    let end = trial_changes::end_of(kind);
    for change in trial_changes::FIRST..end {
        trial_hex::put_untouched(out);
        print_change(rt, line, change)?;
        let answer = write(kind, arguments, change, count, ROOM, bytes, out);
        print_written(rt, answer, bytes, out)?;
    }
    Ok(())
}

// What a counter cannot have, its value and its length can have when they are handed to the writer of values apart.
fn try_values(rt: &impl Print, kind: Kind, s: &[u8], buffer_length: usize) -> io::Result<()> {
    let Kind::Stats = kind else {
        return Ok(());
    };
    for trial in 1..5 {
        try_value(rt, trial, s, buffer_length)?;
    }
    Ok(())
}

fn try_value(rt: &impl Print, trial: u8, s: &[u8], buffer_length: usize) -> io::Result<()> {
    if trial_writers::is_value_writable(trial, s, buffer_length) {
        println!(rt; "value stats {trial}: writable")
    } else {
        println!(rt; "value stats {trial}: not writable")
    }
}

fn write(
    kind: Kind,
    arguments: Arguments,
    change: u8,
    count: usize,
    room: usize,
    bytes: &[u8],
    out: &mut [u8],
) -> Result<usize, Refusal> {
    let s = trial_input::front(bytes, count);
    trial_writers::write(kind, arguments, change, s, bytes, front_mut(out, room))
}

fn front_mut(out: &mut [u8], length: usize) -> &mut [u8] {
    if out.len() < length {
        return &mut out[0..0];
    }
    &mut out[0..length]
}

fn print_heading(rt: &impl Print, line: &[u8], case: usize, count: usize) -> io::Result<()> {
    let length = count.wrapping_add(change_of(case) as usize);
    let room = room_of(case, count);
    print_name(rt, b"write ", line)?;
    print!(rt; " {length} into {room}: ")
}

fn print_change(rt: &impl Print, line: &[u8], change: u8) -> io::Result<()> {
    print_name(rt, b"change ", line)?;
    print!(rt; " {change}: ")
}

// The name of the reader stands in the line's verb, behind `rewrite-`.
fn print_name(rt: &impl Print, heading: &[u8], line: &[u8]) -> io::Result<()> {
    trial_input::write(rt, heading)?;
    let end = trial_hex::place_of(line, b' ');
    trial_input::write(rt, line.get(8..end).unwrap_or(b""))
}

// What was written is to be the bytes that the record was read from, and every other byte of the output what it was.
fn print_written(
    rt: &impl Print,
    answer: Result<usize, Refusal>,
    bytes: &[u8],
    out: &[u8],
) -> io::Result<()> {
    match answer {
        Ok(length) => {
            let inside = if is_copied(bytes, out, length) {
                "same"
            } else {
                "other"
            };
            print!(rt; "written {length} inside={inside} ")?;
            print_outside(rt, out, length)
        }
        Err(refusal) => {
            print_refusal(rt, refusal)?;
            print_outside(rt, out, 0)
        }
    }
}

fn is_copied(bytes: &[u8], out: &[u8], n: usize) -> bool {
    match (bytes.get(..n), out.get(..n)) {
        (Some(read), Some(written)) => read == written,
        _ => false,
    }
}

fn print_outside(rt: &impl Print, out: &[u8], start: usize) -> io::Result<()> {
    if out.iter().skip(start).all(|byte| *byte == UNTOUCHED) {
        println!(rt; "outside=same")
    } else {
        println!(rt; "outside=other")
    }
}

// A Cut alone says what is missing.
fn print_refusal(rt: &impl Print, refusal: Refusal) -> io::Result<()> {
    let Refusal {
        number,
        place,
        missing,
    } = refusal;
    if number == wire::CUT {
        print!(rt; "refused {number} at {place} missing {missing} ")
    } else {
        print!(rt; "refused {number} at {place} ")
    }
}

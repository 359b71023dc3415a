// The lines of an input, one at a time, and text to standard output: what every program that takes lines shares (docs/REPLAY.md, "Input").
#![tactic(auto)]

ghost use Rattle.std.specs.Prelude.{◌≡◌};
ghost use Rattle.wire.specs.View.{view, viewed};
ghost use Rattle.trial_input.specs.Input.{no_input};

use numbers::WireNumber;
use std::io;
use std::io::Read;
use wire::View;

// More than any input has; a loop has to have a bound.
pub const NO_END: u64 = u64::MAX;

// How much of the input's last piece was taken and how long it is, the length of the line that was read, and whether the input ended with it.
#[derive(Clone, Copy)]
pub struct Input {
    pub taken: usize,
    pub piece_length: usize,
    pub line_length: usize,
    pub ended: bool,
}

// Before anything is read.
pub fn no_input() -> Input
    ensures { result ≡ no_input }
{
    Input {
        taken: 0,
        piece_length: 0,
        line_length: 0,
        ended: false,
    }
}

// Reads on to the next LF, piece by piece. What does not fit the line is left out; a line that fills it may have gone on.
pub fn read_line(
    reader: &mut impl Read,
    before: Input,
    piece: &mut [u8],
    line: &mut [u8],
) -> io::Result<Input> {
    let mut input = Input {
        line_length: 0,
        ..before
    };
    for _ in 0..NO_END {
        input = refilled(reader, input, piece)?;
        if input.ended {
            return Ok(input);
        }
        let byte = u8::read_at(piece, input.taken);
        input.taken = input.taken.wrapping_add(1);
        if byte == b'\n' {
            return Ok(input);
        }
        if input.line_length < line.len() {
            line[input.line_length] = byte;
            input.line_length += 1;
        }
    }
    Ok(input)
}

// The next piece, where the last one is used up. The input ends with an empty one.
fn refilled(reader: &mut impl Read, input: Input, piece: &mut [u8]) -> io::Result<Input> {
    if input.taken < input.piece_length {
        return Ok(input);
    }
    let count = reader.read(piece)?;
    Ok(Input {
        taken: 0,
        piece_length: count,
        ended: count == 0,
        ..input
    })
}

// The first bytes of a buffer, none where there are not as many.
pub fn front(s: &[u8], length: usize) -> &[u8]
    ensures { result.now ≡ viewed s.now (view 0 length) }
{
    let view = View { place: 0, length };
    view.part(s)
}

// Writes a text to standard output.
pub fn write(rt: &impl Print, text: &[u8]) -> io::Result<()> {
    rt.write_all(text)
}

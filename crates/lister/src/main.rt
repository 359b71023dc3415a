// Lists the messages of the BMP stream on standard input.
#![tactic(auto)]

ghost use Rattle.std.specs.Prelude.{◌≤◌, IfOk, length};

use std::io;
use std::io::Read;

fn main(rt: HostRuntime) -> io::Result<()> {
    // One byte more than is listed, to see whether there is more.
    let mut input = [0u8; listing::LONGEST + 1];
    let n = read_full(&mut rt.reader(), &mut input)?;
    print_listing(&rt, &input[..n])
}

// Reads until the buffer is full or the input ends, and answers how many bytes it put at the buffer's start. std's read_exact does not say how
// many those are where the input is shorter, and its read_to_end takes a list on the heap.
fn read_full(reader: &mut impl Read, buffer: &mut [u8]) -> io::Result<usize>
    ensures { IfOk result (λ n. n ≤ length buffer.new) }
{
    let mut done: usize = 0;
    while done < buffer.len() {
        let n = reader.read(&mut buffer[done..])?;
        if n == 0 {
            break;
        }
        done += n;
    }
    Ok(done)
}

fn print_listing(rt: &impl Print, s: &[u8]) -> io::Result<()> {
    let mut text = [0u8; listing::ENOUGH];
    match listing::list_messages(s, &mut text) {
        Ok(length) => rt.write_all(&text[..length]),
        Err(_) => Ok(()),
    }
}

// Lists the messages of each BMP stream that a file holds: for every name among the arguments a line with the name, and the listing.
#![tactic(auto)]

ghost use Rattle.std.specs.Prelude.{◌≤◌, length};

use std::env::{Env, FillError};
use std::io::Read;
use std::rt::Files;
use std::{fs, io, str};

fn main(rt: HostRuntime) -> io::Result<()> {
    if !list_argument(&rt, 1)? {
        return print(&rt, b"name the files to list: listings FILE..\n");
    }
    for i in 2..usize::MAX {
        if !list_argument(&rt, i)? {
            break;
        }
    }
    Ok(())
}

// Whether there is such an argument.
fn list_argument<R: Env + Files + Print>(rt: &R, i: usize) -> io::Result<bool> {
    let mut name = [0u8; 4_096];
    match rt.arg(i, &mut name) {
        Ok(n) => list_file(rt, &name[..n])?,
        Err(FillError::TooLong) => {
            print(rt, b"a name of more than 4096 bytes: give a shorter one\n")?
        }
        Err(FillError::NotPresent) => return Ok(false),
    }
    Ok(true)
}

fn list_file<R: Files + Print>(rt: &R, name: &[u8]) -> io::Result<()> {
    // A name that is no text names no file that can be opened here.
    let Ok(path) = str::from_utf8(name) else {
        return print_not_opened(rt, name);
    };
    match fs::open(rt, path) {
        Ok(mut file) => list_open_file(rt, &mut file, name),
        Err(_) => print_not_opened(rt, name),
    }
}

fn print_not_opened(rt: &impl Print, name: &[u8]) -> io::Result<()> {
    print(rt, name)?;
    print(
        rt,
        b": cannot be opened; check the name, and that you may read the file\n",
    )
}

fn list_open_file(rt: &impl Print, file: &mut impl Read, name: &[u8]) -> io::Result<()> {
    // One byte more than is listed, to see whether there is more.
    let mut input = [0u8; listing::LONGEST + 1];
    let n = read_full(file, &mut input);
    print(rt, name)?;
    if n == 0 && !can_be_read(file) {
        return print(
            rt,
            b": cannot be read; give the name of a file, and not of a folder\n",
        );
    }
    print(rt, b"\n")?;
    print_listing(rt, &input[..n])
}

// Reads until the buffer is full, the file ends or a read fails, and answers how many bytes it put at the buffer's start.
fn read_full(file: &mut impl Read, buffer: &mut [u8]) -> usize
    ensures { result ≤ length buffer.new }
{
    let mut done: usize = 0;
    while done < buffer.len() {
        let n = file.read(&mut buffer[done..]).unwrap_or(0);
        if n == 0 {
            break;
        }
        done += n;
    }
    done
}

// Nothing came: the file is empty, or cannot be read.
fn can_be_read(file: &mut impl Read) -> bool {
    let mut one = [0u8; 1];
    file.read(&mut one).is_ok()
}

fn print_listing(rt: &impl Print, s: &[u8]) -> io::Result<()> {
    let mut text = [0u8; listing::ENOUGH];
    match listing::list_messages(s, &mut text) {
        Ok(length) => print(rt, &text[..length]),
        Err(_) => Ok(()),
    }
}

fn print(rt: &impl Print, text: &[u8]) -> io::Result<()> {
    rt.write_all(text)
}

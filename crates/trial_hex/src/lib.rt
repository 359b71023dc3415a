// Bytes from text: digits, and digits that repeat (docs/REPLAY.md, "Input").
#![tactic(auto)]

ghost use Rattle.std.specs.Prelude.{◌≡◌, ◌+◌, ◌/◌, ◌≤◌, ◌<◌, length, Some};
ghost use Rattle.std.proofs.lemmas.List.Edits.{sets};
ghost use Rattle.trial_hex.specs.Hex.{place_of, digit_value, all_digits, are_digits, byte_at, repeated, with_digit, times_from, part_times, part_digits, part_length, part_bytes, parts, measured, all_bytes, is_hyphen, unhexed, unhexed_into, untouched};

// The most characters of a text, and so the most digits.
const MOST_CHARACTERS: usize = 131_072;

// The most times that digits stand.
const MOST_TIMES: usize = 1_048_577;

// Puts the bytes that a text writes at the start of a buffer, which bounds their number, and answers how many they are. A text that writes none
// changes nothing.
pub fn unhex(text: &[u8], bytes: &mut [u8]) -> Option<usize>
    ensures value { result ≡ unhexed text.now (length bytes.old) }
    ensures bytes_after { bytes.new ≡ unhexed_into text.now bytes.old }
{
    if is_hyphen(text) {
        return Some(0);
    }
    if MOST_CHARACTERS < text.len() {
        return None;
    }
    let count = measure(text, bytes.len())?;
    put_parts(text, bytes, count);
    Some(count)
}

// No bytes are written as a hyphen, and never as no digits.
fn is_hyphen(text: &[u8]) -> bool
    ensures { result ≡ is_hyphen text.now }
{
    matches!(text, b"-")
}

// How many bytes the parts of a text write into a buffer of this length.
fn measure(text: &[u8], room: usize) -> Option<usize>
    requires { length text.now ≤ 131072 }
    ensures { result ≡ measured room 0 (parts text.now) }
{
    let mut count: usize = 0;
    for part in text.split(|byte| *byte == b'+') {
        let length = part_length(part);
        if length == 0 || room - count < length {
            return None;
        }
        count += length;
    }
    Some(count)
}

fn put_parts(text: &[u8], bytes: &mut [u8], count: usize)
    requires text_len_bound { length text.now ≤ 131072 }
    requires count_value { Some count ≡ measured (length bytes.old) 0 (parts text.now) }
    ensures { bytes.new ≡ sets bytes.old 0 (all_bytes (parts text.now)) }
{
    let mut at: usize = 0;
    for part in text.split(|byte| *byte == b'+') {
        at += put_part(part, bytes, at);
    }
}

// How many bytes a part writes, 0 where it is none.
fn part_length(part: &[u8]) -> usize
    requires { length part.now ≤ 131072 }
    ensures { result ≡ part_length part.now }
{
    let digits = digits_of(part);
    if !are_digits(digits) {
        return 0;
    }
    times_of(part) * (digits.len() / 2)
}

// Puts the bytes of a part, and answers how many they are.
fn put_part(part: &[u8], bytes: &mut [u8], at: usize) -> usize
    requires part_len_bound { length part.now ≤ 131072 }
    requires part_nonzero { (0 < part_length part.now) × (at + part_length part.now ≤ length bytes.old) }
    ensures value { result ≡ part_length part.now }
    ensures bytes_after { bytes.new ≡ sets bytes.old at (part_bytes part.now) }
{
    let count = part_length(part);
    put_repeated(digits_of(part), count, bytes, at);
    count
}

fn put_repeated(digits: &[u8], count: usize, bytes: &mut [u8], at: usize)
    requires { (2 ≤ length digits.now) × (at + count ≤ length bytes.old) }
    ensures { bytes.new ≡ sets bytes.old at (repeated digits.now 0 count) }
{
    let width = digits.len() / 2;
    for i in 0..count {
        bytes[at + i] = byte_at(digits, i % width);
    }
}

fn byte_at(digits: &[u8], i: usize) -> u8
    requires { i < length digits.now / 2 }
    ensures { result ≡ byte_at digits.now i }
{
    let high = digit_value(digits[2 * i]);
    let low = digit_value(digits[2 * i + 1]);
    high % 16 * 16 + low % 16
}

// The digits of a part, behind its asterisk where it has one.
fn digits_of(part: &[u8]) -> &[u8]
    ensures { result.now ≡ part_digits part.now }
{
    let star = place_of(part, b'*');
    if star < part.len() {
        return &part[star + 1..];
    }
    part
}

// How many times they stand, 0 where what says so is no such number.
fn times_of(part: &[u8]) -> usize
    ensures { (result ≡ part_times part.now) × (result ≤ 1048577) }
{
    let star = place_of(part, b'*');
    if star < part.len() {
        return number_of(&part[..star]);
    }
    1
}

// A number from 1 to 1,048,577 in decimal digits without a leading zero, 0 where a text is none.
pub fn number_of(text: &[u8]) -> usize
    ensures { (result ≡ times_from 0 text.now) × (result ≤ 1048577) }
{
    let mut n: usize = 0;
    for digit in text {
        n = with_digit(n, *digit);
        if n == 0 {
            return 0;
        }
    }
    n
}

// A number with one more digit behind it, 0 where that is too large or no digit, or where a zero leads.
fn with_digit(n: usize, digit: u8) -> usize
    requires { n ≤ 1048577 }
    ensures { (result ≡ with_digit n (digit_value digit)) × (result ≤ 1048577) }
{
    let value = digit_value(digit);
    if 9 < value {
        return 0;
    }
    let next = n * 10 + (value as usize);
    if MOST_TIMES < next {
        return 0;
    }
    next
}

fn are_digits(text: &[u8]) -> bool
    ensures { result ≡ are_digits text.now }
{
    2 <= text.len() && text.len() % 2 == 0 && all_digits(text)
}

fn all_digits(text: &[u8]) -> bool
    ensures { result ≡ all_digits text.now }
{
    text.iter().all(|digit| digit_value(*digit) < 16)
}

// What a lower-case digit stands for, 16 where it is none.
fn digit_value(digit: u8) -> u8
    ensures { result ≡ digit_value digit }
{
    match digit {
        b'0'..=b'9' => digit - b'0',
        b'a'..=b'f' => digit - b'a' + 10,
        _ => 16,
    }
}

// The place of the first byte of a kind, the length where there is none.
pub fn place_of(s: &[u8], byte: u8) -> usize
    ensures { result ≡ place_of byte s.now }
{
    s.iter().position(|x| *x == byte).unwrap_or(s.len())
}

// Fills an output with a5 before it is lent to a writer, so that every byte that is written shows.
pub fn put_untouched(out: &mut [u8])
    ensures { out.new ≡ sets out.old 0 (repeated untouched 0 (length out.old)) }
{
    put_repeated(b"a5", out.len(), out, 0);
}

// Reading a number at a place.
#![tactic(auto)]

ghost use Rattle.std.specs.Prelude.{◌≡◌, ◌+◌, ◌≤◌, ◌<◌, ℕ, length, take, drop, MatchOption};
ghost use Rattle.wire.specs.Bytes.{number_at};

// A number as the wire has it: so many bytes, the most significant first.
pub trait WireNumber: Copy {
    const WIDTH: usize;

    ghost WIDTH: { ℕ };

    ghost value: { Self → ℕ };

    // The number at a place, 0 where not all of its bytes are there.
    fn read_at(s: &[u8], at: usize) -> Self
        ensures { value result ≡ number_at WIDTH s.now at };
}

// The N bytes at a place, where all of them are there. What is left is asked for as the readers ask for it, so that it is asked for once.
pub fn bytes_at<const N: usize>(s: &[u8], at: usize) -> Option<&[u8; N]>
    ensures { MatchOption result (length s.now < at + N) (λ bytes. (at + N ≤ length s.now) × (bytes.now ≡ take N (drop at s.now))) }
{
    if wire::left(s, at) < N || N == 0 && s.len() < at {
        return None;
    }
    s[at..at + N].first_chunk::<N>()
}

impl WireNumber for u8 {
    const WIDTH: usize = 1;

    ghost WIDTH = { 1 };

    ghost value = { λ n. n };

    #[tactic(auto, using(crate::proofs::Bytes::read_1))]
    fn read_at(s: &[u8], at: usize) -> u8 {
        match bytes_at::<1>(s, at) {
            Some(bytes) => u8::from_be_bytes(*bytes),
            None => 0,
        }
    }
}

impl WireNumber for u16 {
    const WIDTH: usize = 2;

    ghost WIDTH = { 2 };

    ghost value = { λ n. n };

    #[tactic(auto, using(crate::proofs::Bytes::read_2))]
    fn read_at(s: &[u8], at: usize) -> u16 {
        match bytes_at::<2>(s, at) {
            Some(bytes) => u16::from_be_bytes(*bytes),
            None => 0,
        }
    }
}

impl WireNumber for u32 {
    const WIDTH: usize = 4;

    ghost WIDTH = { 4 };

    ghost value = { λ n. n };

    #[tactic(auto, using(crate::proofs::Bytes::read_4))]
    fn read_at(s: &[u8], at: usize) -> u32 {
        match bytes_at::<4>(s, at) {
            Some(bytes) => u32::from_be_bytes(*bytes),
            None => 0,
        }
    }
}

impl WireNumber for u64 {
    const WIDTH: usize = 8;

    ghost WIDTH = { 8 };

    ghost value = { λ n. n };

    #[tactic(auto, using(crate::proofs::Bytes::read_8))]
    fn read_at(s: &[u8], at: usize) -> u64 {
        match bytes_at::<8>(s, at) {
            Some(bytes) => u64::from_be_bytes(*bytes),
            None => 0,
        }
    }
}

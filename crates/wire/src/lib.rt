// What every reader and writer of BMP shares: the numbers of refusals, what a need of bytes gets, and views.
#![tactic(auto)]

ghost use Rattle.std.specs.Prelude.{◌≡◌, ◌-◌, length};
ghost use Rattle.wire.specs.Refusal.{refusal, no_refusal, need_at};
ghost use Rattle.wire.specs.View.{inside, no_view, viewed};

// The numbers that answers carry (docs/RULES.md, "Numbers").
//
// There is nothing wrong.
pub const GOOD: u8 = 0;

// The input or the message is longer than the limit.
pub const TOO_LONG: u8 = 1;

// A field or value has fewer bytes left than it needs.
pub const CUT: u8 = 2;

// The version is not 3.
pub const BAD_VERSION: u8 = 3;

// A type, reason or code has no name.
pub const UNKNOWN_KIND: u8 = 4;

// A TLV of Route Mirroring has a type above 1.
pub const BAD_TLV_TYPE: u8 = 5;

// The length of a BGP message is below 19.
pub const BGP_LENGTH: u8 = 6;

// There is one item more than the table holds.
pub const TOO_MANY: u8 = 7;

// An OpenBMP header has another magic number, version or row count.
pub const BAD_OPEN_BMP: u8 = 8;

// An OpenBMP message is not of a router, or not a raw BMP message.
pub const UNSUPPORTED: u8 = 9;

// The length of a message is below 6.
pub const BAD_MESSAGE_LENGTH: u8 = 10;

// The output is too short.
pub const NO_ROOM: u8 = 11;

// The record cannot be written, or counts more than its table holds.
pub const BAD_FIELD: u8 = 12;

// A new peer comes up, and the board has no free place.
pub const BOARD_FULL: u8 = 13;

// The peer is not on the board.
pub const NO_PEER: u8 = 14;

// A message of the session is longer than the receiver's buffer.
pub const STREAM_TOO_BIG: u8 = 15;

// The longest slice that is read, and the longest message that is split off or written.
pub const LIMIT: usize = 1_048_576;

// The fewest bytes of a BGP message: its header (RFC 4271, section 4.1).
pub const BGP_HEADER: usize = 19;

// How many TLVs the table of a body holds.
pub const TLV_PLACES: usize = 32;

// A number of the list above, the place of the field at fault, and how many bytes it lacks, which is 0 but in a Cut; all are 0 in a
// good answer.
#[derive(Clone, Copy)]
pub struct Refusal {
    pub number: u8,
    pub place: usize,
    pub missing: usize,
}

// A place and a length in a buffer.
#[derive(Clone, Copy)]
pub struct View {
    pub place: usize,
    pub length: usize,
}

// The refusal by a number of the list above, at a place, with nothing missing; a Cut is made by need_at, where the bytes are counted.
pub fn refusal_at(number: u8, place: usize) -> Refusal
    ensures { result ≡ refusal number place }
{
    Refusal {
        number,
        place,
        missing: 0,
    }
}

// What stands for a refusal in a good answer.
pub fn no_refusal() -> Refusal
    ensures { result ≡ no_refusal }
{
    refusal_at(GOOD, 0)
}

// What stands for a view where there is nothing to show.
pub fn no_view() -> View
    ensures { result ≡ no_view }
{
    View {
        place: 0,
        length: 0,
    }
}

// Whether so many bytes are there at a place of an input of this length. Every Cut is made here, where the bytes are counted, and
// the readers hand it on.
pub fn need_at(there: usize, at: usize, count: usize) -> Result<(), Refusal>
    ensures { result ≡ need_at there at count }
{
    let left = rest(there, at);
    if left < count {
        let missing = count - left;
        return Err(Refusal {
            number: CUT,
            place: at,
            missing,
        });
    }
    Ok(())
}

// How many bytes are left from a place on.
pub fn left(s: &[u8], at: usize) -> usize
    ensures { result ≡ length s.now - at }
{
    rest(s.len(), at)
}

// How many bytes of an input of this length are left from a place on, none where it lies outside.
fn rest(there: usize, at: usize) -> usize
    ensures { result ≡ there - at }
{
    if at <= there { there - at } else { 0 }
}

impl View {
    // Whether the view lies inside a buffer of this length; the sum of place and length is never formed.
    pub fn is_inside(self, there: usize) -> bool
        ensures { result ≡ inside there self }
    {
        if there < self.length {
            return false;
        }
        if there - self.length < self.place {
            return false;
        }
        true
    }

    // The part of the buffer that the view shows, the empty part at the start where it lies outside.
    pub fn part(self, buffer: &[u8]) -> &[u8]
        ensures { result.now ≡ viewed buffer.now self }
    {
        let place = self.place;
        let length = self.length;
        if buffer.len() < length {
            return &buffer[0..0];
        }
        if buffer.len() - length < place {
            return &buffer[0..0];
        }
        &buffer[place..place + length]
    }
}

// Writing bytes: what every writer of BMP shares.
#![tactic(auto)]

ghost use Rattle.std.specs.Prelude.{◌≡◌};
ghost use Rattle.writing.specs.Write.{put_at, tlv_fits, write_answer};

use wire::{Refusal, View};

// Puts bytes at a place of the output; where they do not fit, nothing changes.
pub fn put_bytes(out: &mut [u8], at: usize, bytes: &[u8])
    ensures { out.new ≡ put_at out.old at bytes.now }
{
    if at <= out.len() && bytes.len() <= out.len() - at {
        out[at..at + bytes.len()].copy_from_slice(bytes);
    }
}

// Whether a TLV can be written from a view of a buffer of this length. A two-byte type always can: it is asked for so that the
// definition speaks of whole TLVs.
pub fn tlv_fits(kind: u16, size: u16, view: View, buffer_length: usize) -> bool
    ensures { result ≡ tlv_fits kind size view buffer_length }
{
    if view.length != (size as usize) {
        return false;
    }
    view.is_inside(buffer_length)
}

// A writer's answer by whether its record is writable, the length that it would write and the room there is: the length that is written, or why
// nothing is.
pub fn write_answer(ok: bool, length: usize, room: usize) -> Result<usize, Refusal>
    ensures { result ≡ write_answer ok length room }
{
    if !ok {
        return Err(wire::refusal_at(wire::BAD_FIELD, 0));
    }
    if wire::LIMIT < length {
        return Err(wire::refusal_at(wire::TOO_LONG, 0));
    }
    if room < length {
        return Err(wire::refusal_at(wire::NO_ROOM, 0));
    }
    Ok(length)
}

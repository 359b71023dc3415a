// One message off the front of a BMP stream.
#![tactic(auto)]

ghost use Rattle.std.specs.Prelude.{◌≡◌, ◌≤◌};
ghost use Rattle.splitter.specs.Read.{judged, split_of};

use common_header::{BmpCommonHeader, COMMON_HEADER, CommonFields};
use wire::{Refusal, View};

// The first message: its header and the view of the whole of it; of a type that RFC 7854 does not have it is skipped, with the
// header's fields in place of the header.
#[derive(Clone, Copy)]
pub enum Split {
    Message(BmpCommonHeader, View),
    Skipped(CommonFields, View),
}

// Splits the first message off the front of the bytes, of which there may be 1,048,576: hand in a longer stream in parts.
pub fn split_message(s: &[u8]) -> Result<Split, Refusal>
    ensures { result ≡ split_of s.now }
{
    judge(common_header::parse_common_fields(s)?, s.len())
}

// The length is judged whatever the type is: it says where the next message starts. Behind a good length only the type can be refused.
fn judge(fields: CommonFields, there: usize) -> Result<Split, Refusal>
    requires { 6 ≤ there }
    ensures { result ≡ judged there fields }
{
    let length = fields.msg_len as usize;
    if length < COMMON_HEADER {
        return Err(wire::refusal_at(wire::BAD_MESSAGE_LENGTH, 1));
    }
    if wire::LIMIT < length {
        return Err(wire::refusal_at(wire::TOO_LONG, 1));
    }
    wire::need_at(there, COMMON_HEADER, length - COMMON_HEADER)?;
    let message = View { place: 0, length };
    Ok(match fields.header() {
        Ok((header, _)) => Split::Message(header, message),
        Err(_) => Split::Skipped(fields, message),
    })
}

// Writing the body of a BMP Peer Down notification (RFC 7854, section 4.9).
#![tactic(auto)]

ghost use Rattle.std.specs.Prelude.{◌≡◌, length};
ghost use Rattle.writing.specs.Write.{Wrote};
ghost use Rattle.peer_down_notification.specs.Shown.{kind_of};
ghost use Rattle.peer_down_notification_writer.specs.Write.{parts_writable, writable, bytes_of};

use numbers_writer::PutNumber;
use peer_down_notification::{PeerDownNotification, PeerDownReason};
use wire::{Refusal, View};

// Writes the notification, whose view points into the buffer, to the front of the output.
#[tactic(auto, using(writing::proofs::Answers::left_alone, crate::proofs::Written::bytes_long))]
pub fn write_peer_down_notification(
    notification: PeerDownNotification,
    buffer: &[u8],
    out: &mut [u8],
) -> Result<usize, Refusal>
    ensures { Wrote (writable notification (length buffer.now)) (bytes_of notification buffer.now) out.old result out.new }
{
    let data = notification.data;
    // No data is written as the empty part.
    let view = data.unwrap_or(wire::no_view());
    let part = view.part(buffer);
    let ok = is_writable(notification.reason, data.is_some(), view, buffer.len());
    let length = writing::write_answer(ok, 1 + part.len(), out.len())?;
    notification.reason.number().put(out, 0);
    writing::put_bytes(out, 1, part);
    Ok(length)
}

#[tactic(auto, unfolding(crate::specs::Write::parts_writable))]
fn is_writable(reason: PeerDownReason, present: bool, view: View, buffer_length: usize) -> bool
    ensures { result ≡ parts_writable (kind_of reason) present view buffer_length }
{
    reason.has_data(view.length) == present && view.is_inside(buffer_length)
}

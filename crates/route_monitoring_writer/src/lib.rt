// Writing the body of a BMP Route Monitoring message (RFC 7854, section 4.6).
#![tactic(auto)]

ghost use Rattle.std.specs.Prelude.{◌≡◌, length};
ghost use Rattle.writing.specs.Write.{Wrote};
ghost use Rattle.route_monitoring_writer.specs.Write.{view_writable, writable, bytes_of};

use route_monitoring::RouteMonitoring;
use wire::{Refusal, View};

// Writes the message, whose view points into the buffer, to the front of the output.
#[tactic(auto, using(writing::proofs::Answers::left_alone, writing::proofs::Answers::put_there, writing::proofs::Answers::wrote, writing::proofs::Sets::put_fits))]
pub fn write_route_monitoring(
    message: RouteMonitoring,
    buffer: &[u8],
    out: &mut [u8],
) -> Result<usize, Refusal>
    ensures { Wrote (writable message (length buffer.now)) (bytes_of message buffer.now) out.old result out.new }
{
    let view = message.bgp_message;
    let part = view.part(buffer);
    let length = writing::write_answer(is_writable(view, buffer.len()), part.len(), out.len())?;
    writing::put_bytes(out, 0, part);
    Ok(length)
}

fn is_writable(view: View, buffer_length: usize) -> bool
    ensures { result ≡ view_writable view buffer_length }
{
    wire::BGP_HEADER <= view.length && view.is_inside(buffer_length)
}

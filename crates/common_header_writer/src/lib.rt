// Writing the common header of a BMP message (RFC 7854, section 4.1).
#![tactic(auto)]

ghost use Rattle.std.specs.Prelude.{◌≡◌, ◌≤◌, length};
ghost use Rattle.std.proofs.lemmas.List.Edits.{sets};
ghost use Rattle.writing.specs.Write.{Wrote};
ghost use Rattle.common_header_writer.specs.Write.{writable, bytes_of};

use common_header::{BmpCommonHeader, COMMON_HEADER, VERSION};
use numbers_writer::PutNumber;
use wire::Refusal;

// Writes the header to the front of the output.
#[tactic(auto, using(writing::proofs::Answers::left_alone, writing::proofs::Answers::put_there), unfolding(wire::specs::Bytes::be))]
pub fn write_bmp_common_header(header: BmpCommonHeader, out: &mut [u8]) -> Result<usize, Refusal>
    ensures { Wrote (writable header) (bytes_of header) out.old result out.new }
{
    let length = writing::write_answer(is_writable(header), COMMON_HEADER, out.len())?;
    put_header(header, out);
    Ok(length)
}

fn is_writable(header: BmpCommonHeader) -> bool
    ensures { result ≡ writable header }
{
    header.version == VERSION
}

#[tactic(auto, using(writing::proofs::Sets::put_then, writing::proofs::Sets::put_fits, writing::proofs::Sets::length_put), unfolding(wire::specs::Bytes::be))]
fn put_header(header: BmpCommonHeader, out: &mut [u8])
    requires { 6 ≤ length out.old }
    ensures { out.new ≡ sets out.old 0 (bytes_of header) }
{
    let msg_type = header.msg_type;
    header.version.put(out, 0);
    header.msg_len.put(out, 1);
    common_header::kind_of(msg_type).put(out, 5);
}

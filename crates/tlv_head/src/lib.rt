// The head of a TLV, its type and its length: what every walk over TLVs reads first.
#![tactic(auto)]

ghost use Rattle.std.specs.Prelude.{◌≡◌};
ghost use Rattle.tlv_head.specs.Head.{head_at};

use cursor::Cursor;
use numbers::WireNumber;

// How many bytes a head takes.
pub const HEAD: usize = 4;

// The type, the length and the cursor behind them, where the value starts.
#[derive(Clone, Copy)]
pub struct TlvHead {
    pub kind: u16,
    pub length: u16,
    pub value: Cursor,
}

// The head that stands at the cursor, in a walk that goes on while a head and so many bytes behind it are left; none where fewer are. Type and
// length are read as one number, so that their bytes are asked for once.
pub fn read_head(start: Cursor, s: &[u8], behind: usize) -> Option<TlvHead>
    ensures { result ≡ head_at behind s.now start.at }
{
    let at = start.at;
    let left = wire::left(s, at);
    if left < HEAD {
        return None;
    }
    if left - HEAD < behind {
        return None;
    }
    let head = u32::read_at(s, at);
    Some(TlvHead {
        kind: (head / 65_536) as u16,
        length: (head % 65_536) as u16,
        value: Cursor { at: at + HEAD },
    })
}

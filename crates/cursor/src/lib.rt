// Reading numbers one after another: each read hands back the number and the cursor behind it, or the Cut of a number that is not all there.
#![tactic(auto)]

ghost use Rattle.std.specs.Prelude.{◌≡◌};
ghost use Rattle.cursor.specs.Read.{read, value_read};

use numbers::WireNumber;
use wire::Refusal;

// The place of the next byte to be read.
#[derive(Clone, Copy)]
pub struct Cursor {
    pub at: usize,
}

impl Cursor {
    // Reads a number at the cursor.
    pub fn read<N: WireNumber>(self, s: &[u8]) -> Result<(N, Cursor), Refusal>
        ensures { value_read N.value result ≡ read N.WIDTH s.now self.at }
    {
        let at = self.at;
        wire::need_at(s.len(), at, N::WIDTH)?;
        let next = Cursor { at: at + N::WIDTH };
        Ok((N::read_at(s, at), next))
    }
}

// Where a run of fields of fixed widths is cut.
#![tactic(auto)]

ghost use Rattle.std.specs.Prelude.{◌≡◌};
ghost use Rattle.layout.specs.Layout.{cut_in};

use wire::Refusal;

// The Cut of a run of fields of these widths, the first at a place, in an input of this length: that of the first field that lacks
// bytes, and no refusal where none does. No Result: each caller knows that a field lacks bytes, and asks only which.
pub fn cut_in(widths: &[usize], at: usize, there: usize) -> Refusal
    ensures { result ≡ cut_in widths.now at there }
{
    let mut place = at;
    for &width in widths {
        if let Err(refusal) = wire::need_at(there, place, width) {
            return refusal;
        }
        place += width;
    }
    wire::no_refusal()
}

// A walk over the items of a body, one after the other, into a table: what every reader of a list shares.
#![tactic(auto)]

ghost use Rattle.std.specs.Prelude.{◌≡◌, ℕ, ◌≤◌, List, length, drop};
ghost use Rattle.wire.specs.Number as Number;
ghost use Rattle.wire.specs.Walk as Wire;
ghost use Rattle.walk.specs.Walk.{kit_of, step_of, WalksAndLeaves};

pub mod lent;

use cursor::Cursor;
use wire::Refusal;

// What stands at a place of the walk: its end, with the place where it stops; or an entry for the table, and the cursor past its item.
#[derive(Clone, Copy)]
pub enum Step<E> {
    Stop(usize),
    Whole(E, Cursor),
}

// How many entries were filled, where the last of their items ends, and where the walk stopped.
#[derive(Clone, Copy)]
pub struct Walked {
    pub count: usize,
    pub end: usize,
    pub stop: usize,
}

// An entry of a table, and how the next one is found. The walk asks for steps only where the input is no longer than is read. A step hands its
// entry back; one that puts it into an entry that it is lent costs less, and is an Entry of the module lent.
pub trait Entry: Copy {
    ghost Item: { Type 0 };

    ghost step: { List ℕ → Wire.Step Item };

    ghost size: { Item → ℕ };

    ghost entry: { ℕ → Item → Self };

    ghost none: { Self };

    ghost stop_at: { ℕ → List ℕ → ℕ };

    fn step_at(s: &[u8], at: usize) -> Result<Step<Self>, Refusal>
        requires { length s.now ≤ Number.limit }
        ensures { result ≡ step_of entry size stop_at at (drop at s.now) (step (drop at s.now)) };
}

// Walks from a place on over at most so many items; one more than the table holds is refused.
pub fn walk<E: Entry>(
    s: &[u8],
    start: usize,
    most: usize,
    table: &mut [E],
) -> Result<Walked, Refusal>
    ensures { WalksAndLeaves (kit_of E.Item E E.step E.size E.entry E.none (length table.old)) E.stop_at most start s.now table.old result table.new }
{
    if wire::LIMIT < s.len() {
        return Err(wire::refusal_at(wire::TOO_LONG, 0));
    }
    let mut at = start;
    for count in 0..most {
        match E::step_at(s, at)? {
            Step::Stop(stop) => {
                return Ok(Walked {
                    count,
                    end: at,
                    stop,
                });
            }
            Step::Whole(entry, next) => {
                if table.len() <= count {
                    return Err(wire::refusal_at(wire::TOO_MANY, at));
                }
                table[count] = entry;
                at = next.at;
            }
        }
    }
    Ok(Walked {
        count: most,
        end: at,
        stop: at,
    })
}

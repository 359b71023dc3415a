// The same walk where a step puts its entry into one that it is lent: handed back beside a place it would go over the stack.
ghost use Rattle.std.specs.Prelude.{◌≡◌, ℕ, ◌≤◌, List, length, drop};
ghost use Rattle.wire.specs.Number as Number;
ghost use Rattle.wire.specs.Walk as Wire;
ghost use Rattle.walk.specs.Walk.{kit_of, WalksAndLeaves};
ghost use Rattle.walk.specs.Lent.{step_of};

use super::Walked;
use cursor::Cursor;
use wire::Refusal;

// What stands at a place of the walk: its end, with the place where it stops; or an item, with the cursor past it.
#[derive(Clone, Copy)]
pub enum Step {
    Stop(usize),
    Whole(Cursor),
}

// An entry of a table, and how the next one is found. The walk asks for steps only where the input is no longer than is read.
pub trait Entry: Copy {
    // What an entry is that shows no item.
    const NONE: Self;

    ghost Item: { Type 0 };

    ghost step: { List ℕ → Wire.Step Item };

    ghost size: { Item → ℕ };

    ghost entry: { ℕ → Item → Self };

    ghost NONE: { Self };

    ghost stop_at: { ℕ → List ℕ → ℕ };

    // The entry that shows the item is put into the one that is lent. What is no item changes nothing.
    fn step_at(s: &[u8], at: usize, slot: &mut Self) -> Result<Step, Refusal>
        requires { length s.now ≤ Number.limit }
        ensures { (result, slot.new) ≡ step_of entry size stop_at at (drop at s.now) slot.old (step (drop at s.now)) };
}

// Whoever fills an entry that is lent can hand one back.
impl<E: Entry> super::Entry for E {
    ghost Item = { E.Item };

    ghost step = { E.step };

    ghost size = { E.size };

    ghost entry = { E.entry };

    ghost none = { E.NONE };

    ghost stop_at = { E.stop_at };

    fn step_at(s: &[u8], at: usize) -> Result<super::Step<E>, Refusal> {
        let mut entry = E::NONE;
        match <E as Entry>::step_at(s, at, &mut entry)? {
            Step::Stop(stop) => Ok(super::Step::Stop(stop)),
            Step::Whole(next) => Ok(super::Step::Whole(entry, next)),
        }
    }
}

// Walks from a place on over at most so many items; one more than the table holds is refused.
pub fn walk<E: Entry>(
    s: &[u8],
    start: usize,
    most: usize,
    table: &mut [E],
) -> Result<Walked, Refusal>
    ensures { WalksAndLeaves (kit_of E.Item E E.step E.size E.entry E.NONE (length table.old)) E.stop_at most start s.now table.old result table.new }
{
    if wire::LIMIT < s.len() {
        return Err(wire::refusal_at(wire::TOO_LONG, 0));
    }
    let mut at = start;
    for count in 0..most {
        let mut entry = E::NONE;
        match E::step_at(s, at, &mut entry)? {
            Step::Stop(stop) => {
                return Ok(Walked {
                    count,
                    end: at,
                    stop,
                });
            }
            Step::Whole(next) => {
                if table.len() <= count {
                    return Err(wire::refusal_at(wire::TOO_MANY, at));
                }
                table[count] = entry;
                at = next.at;
            }
        }
    }
    Ok(Walked {
        count: most,
        end: at,
        stop: at,
    })
}

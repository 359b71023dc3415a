// The body of a BMP Statistics Report (RFC 7854, section 4.8).
#![tactic(auto)]

ghost use Rattle.std.specs.Prelude.{◌≡◌};
ghost use Rattle.stats_type.specs.Shown.{type_of};
ghost use Rattle.stats_report.specs.Grammar.{Stat, size_of};
ghost use Rattle.stats_report.specs.Shown.{data_in, entry, zero_counter};
ghost use Rattle.stats_report.specs.Read.{count_of, head_cut, step, stop_at, read_stats};

use cursor::Cursor;
use stats_data::StatsData;
use stats_type::StatType;
use walk::lent::{Entry, Step};
use wire::Refusal;

// How many counters the table of a report holds.
pub const COUNTER_PLACES: usize = 64;

// The counters, how many of them there are, and the count that the report says.
#[derive(Clone, Copy)]
pub struct StatsReport {
    pub counters: [StatCounter; COUNTER_PLACES],
    pub count: usize,
    pub stats_count: u32,
}

// A record as the wire has it. The length alone says the form: 4 is a counter, 8 a gauge, 11 an AFI, a SAFI and a gauge, and of any
// other the value is the place of its bytes; parts that the form does not use are zero.
#[derive(Clone, Copy)]
pub struct StatCounter {
    pub kind: u16,
    pub stat_len: u16,
    pub afi: u16,
    pub safi: u16,
    pub value: u64,
}

// The stop is where the last counter ends, and the tail starts.
#[derive(Clone, Copy)]
pub struct StatsAnswer {
    pub stop: usize,
    pub report: StatsReport,
}

impl StatCounter {
    // The name of what is counted.
    pub fn stat_type(self) -> StatType
        ensures { result ≡ type_of self.kind }
    {
        stats_type::type_of(self.kind)
    }

    // The data, in the form that the length says.
    pub fn stat_data(self) -> StatsData
        ensures { result ≡ data_in self }
    {
        stats_data::data_of(self.stat_len, self.afi, self.safi, self.value)
    }
}

// Reads the body: the count, as many records as it says, and a tail that is left.
pub fn parse_stats_report(s: &[u8]) -> Result<StatsAnswer, Refusal>
    ensures { result ≡ read_stats s.now }
{
    let (stats_count, behind) = read_count(s)?;
    let mut counters = [StatCounter::NONE; COUNTER_PLACES];
    let walked = walk::lent::walk(s, behind.at, stats_count as usize, &mut counters)?;
    Ok(StatsAnswer {
        stop: walked.end,
        report: StatsReport {
            counters,
            count: walked.count,
            stats_count,
        },
    })
}

impl Entry for StatCounter {
    const NONE: StatCounter = StatCounter {
        kind: 0,
        stat_len: 0,
        afi: 0,
        safi: 0,
        value: 0,
    };

    ghost Item = { Stat };

    ghost step = { step };

    ghost size = { size_of };

    ghost entry = { entry };

    ghost NONE = { zero_counter };

    ghost stop_at = { stop_at };

    // The record that stands at a place, or the field that lacks bytes: the walk does not stop before the count.
    #[tactic(auto, using(crate::proofs::Steps::answers))]
    fn step_at(s: &[u8], at: usize, slot: &mut StatCounter) -> Result<Step, Refusal> {
        let Some(head) = tlv_head::read_head(Cursor { at }, s, 0) else {
            return Err(head_cut(s, at));
        };
        let (afi, safi, value, next) = stats_data::read_data(s, head.value, head.length)?;
        *slot = StatCounter {
            kind: head.kind,
            stat_len: head.length,
            afi,
            safi,
            value,
        };
        Ok(Step::Whole(next))
    }
}

// The count in front of the records, and the cursor behind it.
fn read_count(s: &[u8]) -> Result<(u32, Cursor), Refusal>
    ensures { result ≡ count_of s.now }
{
    if wire::LIMIT < s.len() {
        return Err(wire::refusal_at(wire::TOO_LONG, 0));
    }
    let start = Cursor { at: 0 };
    start.read::<u32>(s)
}

// The type and the length are two fields, each Cut at its own place.
fn head_cut(s: &[u8], at: usize) -> Refusal
    ensures { result ≡ head_cut s.now at }
{
    let widths = [2usize, 2];
    layout::cut_in(&widths, at, s.len())
}

#[cfg(test)]
mod tests {
    use super::*;
    use std::test::Fail;

    #[test]
    fn a_step_hands_back_its_entry(rt: HostRuntime) -> Result<(), Fail> {
        let body = [1, 0, 6, 0, 4, 0, 0, 1, 2];
        let found = <StatCounter as walk::Entry>::step_at(&body, 1)
            .ok()
            .ok_or("refused")?;
        let walk::Step::Whole(counter, next) = found else {
            return Err(Fail::from("no counter"));
        };
        assert_eq!(rt;
            (counter.kind, counter.stat_len, counter.value, next.at),
            (6, 4, 258, 9)
        );
        let end = <StatCounter as walk::Entry>::step_at(&body, 9);
        let cut = matches!(
            end,
            Err(Refusal {
                number: wire::CUT,
                place: 9,
                ..
            })
        );
        assert!(rt; cut);
        Ok(())
    }
}

// What is kept of a Statistics Report (RFC 7854, section 4.8) once its bytes are gone: the counters, without the places of raw values.
#![tactic(auto)]

ghost use Rattle.std.specs.Prelude.{◌≡◌};
ghost use Rattle.stats_type.specs.Shown.{type_of};
ghost use Rattle.kept_report.specs.Kept.{counter_of, kept_counter, kept_report, kept_data, no_report};

use stats_data::StatsData;
use stats_report::{StatCounter, StatsReport};
use stats_type::StatType;

// The counters and how many of them there are; those past the count are zero.
#[derive(Clone, Copy)]
pub struct KeptReport {
    pub counters: [KeptCounter; stats_report::COUNTER_PLACES],
    pub count: usize,
}

// A record of the report. The length alone says the form, as in the report; of a raw value type and length are all that is kept.
#[derive(Clone, Copy)]
pub struct KeptCounter {
    pub kind: u16,
    pub stat_len: u16,
    pub afi: u16,
    pub safi: u16,
    pub value: u64,
}

// What a kept counter says: as `StatsData`, but a raw value's bytes are gone.
#[derive(Clone, Copy)]
pub enum KeptData {
    Counter(u32),
    Gauge(u64),
    AfiSafiGauge(u16, u8, u64),
    Raw,
}

impl KeptCounter {
    // The name of what is counted.
    pub fn stat_type(self) -> StatType
        ensures { result ≡ type_of self.kind }
    {
        stats_type::type_of(self.kind)
    }

    // The data, in the form that the length says.
    pub fn stat_data(self) -> KeptData
        ensures { result ≡ kept_data self }
    {
        match stats_data::data_of(self.stat_len, self.afi, self.safi, self.value) {
            StatsData::Counter(n) => KeptData::Counter(n),
            StatsData::Gauge(n) => KeptData::Gauge(n),
            StatsData::AfiSafiGauge(afi, safi, n) => KeptData::AfiSafiGauge(afi, safi, n),
            StatsData::Unknown(_) => KeptData::Raw,
        }
    }
}

// No counters at all.
pub fn no_report() -> KeptReport
    ensures { result ≡ no_report }
{
    let none = counter_of(0, 0, 0, 0, 0);
    KeptReport {
        counters: [none; stats_report::COUNTER_PLACES],
        count: 0,
    }
}

// What is kept of a report: as many counters as it counts, at most those that its table has.
pub fn keep(report: StatsReport) -> KeptReport
    ensures { result ≡ kept_report report }
{
    let zero = counter_of(0, 0, 0, 0, 0);
    let mut counters = [zero; stats_report::COUNTER_PLACES];
    let count = report.count.min(stats_report::COUNTER_PLACES);
    for i in 0..count {
        counters[i] = kept_counter(report.counters[i]);
    }
    KeptReport { counters, count }
}

fn kept_counter(counter: StatCounter) -> KeptCounter
    ensures { result ≡ kept_counter counter }
{
    if matches!(counter.stat_data(), StatsData::Unknown(_)) {
        return counter_of(counter.kind, counter.stat_len, 0, 0, 0);
    }
    counter_of(
        counter.kind,
        counter.stat_len,
        counter.afi,
        counter.safi,
        counter.value,
    )
}

fn counter_of(kind: u16, stat_len: u16, afi: u16, safi: u16, value: u64) -> KeptCounter
    ensures { result ≡ counter_of kind stat_len afi safi value }
{
    KeptCounter {
        kind,
        stat_len,
        afi,
        safi,
        value,
    }
}

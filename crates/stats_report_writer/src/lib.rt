// Writing the body of a BMP Statistics Report (RFC 7854, section 4.8).
#![tactic(auto)]

ghost use Rattle.std.specs.Prelude.{◌≡◌, length};
ghost use Rattle.writing.specs.Write.{Wrote};
ghost use Rattle.stats_report_writer.specs.Write.{writer, plain, one_counter, bytes_of, writable};
ghost use Rattle.stats_report_writer.specs.Entries.{bodied};

use numbers_writer::PutNumber;
use stats_report::{COUNTER_PLACES, StatCounter, StatsReport};
use table_writer::Table;
use wire::Refusal;

// Writes the report, whose views point into the buffer, to the front of the output. The table is judged and measured in one pass
// and written in a second, where it stands.
#[tactic(auto, using(crate::proofs::Written::refused_whole, crate::proofs::Written::wrote_whole))]
pub fn write_stats_report(
    report: StatsReport,
    buffer: &[u8],
    out: &mut [u8],
) -> Result<usize, Refusal>
    ensures { Wrote (writable report (length buffer.now)) (bytes_of report buffer.now) out.old result out.new }
{
    let count = report.count;
    if COUNTER_PLACES < count || (report.stats_count as usize) != count {
        return writing::write_answer(false, 0, out.len());
    }
    let length = table_writer::write::<Counters>(4, &report.counters[..count], buffer, out)?;
    report.stats_count.put(out, 0);
    Ok(length)
}

struct Counters;

impl Table for Counters {
    type Entry = StatCounter;

    ghost Item = { writer.Item };

    ghost part = { writer.part };

    ghost put_item = { writer.put };

    ghost ok = { writer.ok };

    ghost size = { writer.size };

    ghost one = { one_counter };

    ghost bodied = { bodied };

    fn is_writable(counter: StatCounter, buffer_length: usize, _after: usize) -> bool {
        is_plain(counter)
            && stats_data_writer::data_writable(
                counter.kind,
                counter.stat_len,
                counter.stat_data(),
                buffer_length,
            )
    }

    fn length(counter: StatCounter) -> usize {
        4 + (counter.stat_len as usize)
    }

    #[tactic(auto, using(writing::proofs::Sets::length_tlv, writing::proofs::Sets::put_three))]
    fn put(out: &mut [u8], at: usize, counter: StatCounter, buffer: &[u8]) {
        counter.kind.put(out, at);
        counter.stat_len.put(out, at + 2);
        stats_data_writer::put_data(out, at + 4, counter.stat_data(), buffer);
    }
}

// Whether the reader could show these numbers: a part that the form does not use is zero, a SAFI has one byte and a counter four.
#[tactic(auto, unfolding(crate::specs::Write::plain))]
fn is_plain(counter: StatCounter) -> bool
    ensures { result ≡ plain counter }
{
    if counter.stat_len == 11 {
        return counter.safi < 256;
    }
    let is_small = counter.stat_len != 4 || counter.value < 4_294_967_296;
    counter.afi == 0 && counter.safi == 0 && is_small
}

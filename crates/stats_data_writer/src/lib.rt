// Writing the value of a statistics record (RFC 7854, section 4.8).
#![tactic(auto)]

ghost use Rattle.std.specs.Prelude.{◌≡◌};
ghost use Rattle.writing.specs.Write.{put_at};
ghost use Rattle.stats_data.specs.Grammar.{value_bytes, afi_safi_gauge};
ghost use Rattle.stats_data_writer.specs.Write.{data_bytes, data_writable};

use numbers_writer::PutNumber;
use stats_data::StatsData;

// Whether a record can be written with this type, length and data, a view of a buffer of this length. The numbers of a type always
// fit it: the definition asks for them all the same, so that it speaks of whole records.
#[tactic(auto, unfolding(crate::specs::Write::data_writable))]
pub fn data_writable(kind: u16, size: u16, stat_data: StatsData, buffer_length: usize) -> bool
    ensures { result ≡ data_writable buffer_length kind size stat_data }
{
    match stat_data {
        StatsData::Counter(_) => size == 4,
        StatsData::Gauge(_) => size == 8,
        StatsData::AfiSafiGauge(_, _, _) => size == 11,
        StatsData::Unknown(view) => {
            !matches!(size, 4 | 8 | 11) && writing::tlv_fits(kind, size, view, buffer_length)
        }
    }
}

// Puts the bytes of a value at a place; where they do not fit, nothing changes.
pub fn put_data(out: &mut [u8], at: usize, stat_data: StatsData, buffer: &[u8])
    ensures { out.new ≡ put_at out.old at (data_bytes buffer.now stat_data) }
{
    match stat_data {
        StatsData::Counter(n) => n.put(out, at),
        StatsData::Gauge(n) => n.put(out, at),
        StatsData::AfiSafiGauge(afi, safi, n) => put_afi_safi_gauge(out, at, afi, safi, n),
        StatsData::Unknown(view) => writing::put_bytes(out, at, view.part(buffer)),
    }
}

#[tactic(auto, using(writing::proofs::Sets::put_then, writing::proofs::Sets::put_nothing, writing::proofs::Sets::length_put, wire::proofs::Bytes::length_be), unfolding(wire::specs::Bytes::be))]
fn put_afi_safi_gauge(out: &mut [u8], at: usize, afi: u16, safi: u8, n: u64)
    ensures { out.new ≡ put_at out.old at (value_bytes (afi_safi_gauge afi safi n)) }
{
    if 11 <= wire::left(out, at) {
        let safi_at = at + 2;
        let n_at = at + 3;
        afi.put(out, at);
        safi.put(out, safi_at);
        n.put(out, n_at);
    }
}

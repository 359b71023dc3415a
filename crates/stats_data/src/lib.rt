// The value of a statistics record (RFC 7854, section 4.8), by its length alone: the type has no say.
#![tactic(auto)]

ghost use Rattle.std.specs.Prelude.{◌≡◌, ◌-◌, ◌≤◌, length, Ok};
ghost use Rattle.stats_data.specs.Shown.{data_of};
ghost use Rattle.stats_data.specs.Read.{read_data};

use cursor::Cursor;
use numbers::WireNumber;
use wire::{Refusal, View};

// What a counter says, by the length of its value: 4, 8, or 11 for an AFI, a SAFI and a gauge; of any other length where it stands.
#[derive(Clone, Copy)]
pub enum StatsData {
    Counter(u32),
    Gauge(u64),
    AfiSafiGauge(u16, u8, u64),
    Unknown(View),
}

// The numbers of the value at the cursor, and the cursor past it: the AFI, the SAFI and the number, zero where the form has none; that of a raw
// value is its place. In every form it is one field, so the Cut is that of the whole value.
pub fn read_data(s: &[u8], start: Cursor, size: u16) -> Result<(u16, u16, u64, Cursor), Refusal>
    ensures { result ≡ read_data size s.now start.at }
{
    wire::need_at(s.len(), start.at, size as usize)?;
    Ok(whole_data(s, start.at, size))
}

// The numbers of a value that is all there.
fn whole_data(s: &[u8], at: usize, size: u16) -> (u16, u16, u64, Cursor)
    requires { size ≤ length s.now - at }
    ensures { Ok result ≡ read_data size s.now at }
{
    let next = Cursor {
        at: at + (size as usize),
    };
    match size {
        4 => (0, 0, u32::read_at(s, at) as u64, next),
        8 => (0, 0, u64::read_at(s, at), next),
        11 => (
            u16::read_at(s, at),
            u8::read_at(s, at + 2) as u16,
            u64::read_at(s, at + 3),
            next,
        ),
        _ => (0, 0, at as u64, next),
    }
}

// The data that the numbers of a value say, by its length; what is too large for a counter or a SAFI is cut down to it.
#[tactic(auto, unfolding(crate::specs::Shown::data_of))]
pub fn data_of(size: u16, afi: u16, safi: u16, number: u64) -> StatsData
    ensures { result ≡ data_of size afi safi number }
{
    match size {
        4 => StatsData::Counter((number % 4_294_967_296) as u32),
        8 => StatsData::Gauge(number),
        11 => StatsData::AfiSafiGauge(afi, (safi % 256) as u8, number),
        _ => StatsData::Unknown(View {
            place: number as usize,
            length: size as usize,
        }),
    }
}

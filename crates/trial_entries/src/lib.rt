// The entries of records' tables, one by one, and the equality of two headers: what each answers as plain numbers, with the form that they are printed by
// (docs/REPLAY.md, "Forms").
#![tactic(auto)]

use initiation_message::{InitiationTlv, InitiationTlvType};
use peer_up_notification::{PeerUpNotificationTlv, PeerUpTlvType};
use route_mirroring::{RouteMirroringTlv, RouteMirroringValue};
use stats_data::StatsData;
use stats_report::StatCounter;
use stats_type::StatType;
use termination_message::{TerminationTlv, TerminationTlvValue};
use trial_forms::{Arguments, Form, Kind, Shown};
use wire::{Refusal, View};

// Reads the record again: a value that could hold any of five tables would hold all of them. Where there is no such entry, nothing is shown.
pub fn entry(kind: Kind, arguments: Arguments, s: &[u8], i: usize) -> Shown {
    let shown = match kind {
        Kind::Stats => stats_entry(s, i),
        Kind::Initiation => initiation_entry(s, i),
        Kind::Termination => termination_entry(s, i),
        Kind::Mirroring => mirroring_entry(s, i),
        Kind::PeerUp => peer_up_entry(arguments, s, i),
        _ => None,
    };
    shown.unwrap_or(trial_forms::bare(Form::Nothing as usize))
}

fn stats_entry(s: &[u8], i: usize) -> Option<Shown> {
    let answer = stats_report::parse_stats_report(s).ok()?;
    let counter = answer.report.counters.get(i)?;
    Some(counter_entry(i as u64, *counter))
}

fn counter_entry(i: u64, counter: StatCounter) -> Shown {
    let kind = counter.kind as u64;
    let size = counter.stat_len as u64;
    let name = stat_name(counter.stat_type());
    let (form, a, b, c) = match counter.stat_data() {
        StatsData::Counter(n) => (Form::Counter, n as u64, 0, 0),
        StatsData::Gauge(n) => (Form::Gauge, n, 0, 0),
        StatsData::AfiSafiGauge(afi, safi, n) => (Form::AfiSafiGauge, afi as u64, safi as u64, n),
        StatsData::Unknown(view) => (Form::Raw, view.place as u64, view.length as u64, 0),
    };
    of_seven(form as usize, i, kind, size, name, a, b, c)
}

// The mark of a type: N where it has a name, O where it has none.
pub fn stat_name(stat_type: StatType) -> u64 {
    match stat_type {
        StatType::Other(_) => b'O' as u64,
        _ => b'N' as u64,
    }
}

// A form with seven numbers.
pub fn of_seven(form: usize, a: u64, b: u64, c: u64, d: u64, e: u64, f: u64, g: u64) -> Shown {
    Shown {
        form,
        count: 0,
        numbers: [a, b, c, d, e, f, g, 0, 0, 0, 0, 0, 0, 0, 0, 0],
    }
}

fn initiation_entry(s: &[u8], i: usize) -> Option<Shown> {
    let answer = initiation_message::parse_initiation_message(s).ok()?;
    let tlv = answer.message.tlvs.get(i)?;
    Some(initiation_tlv(i as u64, *tlv))
}

fn initiation_tlv(i: u64, tlv: InitiationTlv) -> Shown {
    let form = match tlv.info_type() {
        InitiationTlvType::Unknown(_) => Form::UnknownTlv,
        _ => Form::NamedTlv,
    };
    tlv_entry(form, i, tlv.kind as u64, tlv.info_len as u64, tlv.info())
}

fn tlv_entry(form: Form, i: u64, kind: u64, size: u64, view: View) -> Shown {
    let place = view.place as u64;
    trial_forms::of_five(form as usize, 0, i, kind, size, place, view.length as u64)
}

fn termination_entry(s: &[u8], i: usize) -> Option<Shown> {
    let answer = termination_message::parse_termination_message(s).ok()?;
    let tlv = answer.message.tlvs.get(i)?;
    Some(termination_tlv(i as u64, *tlv))
}

fn termination_tlv(i: u64, tlv: TerminationTlv) -> Shown {
    let size = tlv.info_len as u64;
    match tlv.info_value() {
        TerminationTlvValue::String(view) => text_entry(Form::String, i, size, view),
        TerminationTlvValue::Reason(reason) => code_entry(Form::Reason, i, size, reason.code()),
    }
}

fn text_entry(form: Form, i: u64, size: u64, view: View) -> Shown {
    let place = view.place as u64;
    trial_forms::of_five(form as usize, 0, i, size, place, view.length as u64, 0)
}

fn code_entry(form: Form, i: u64, size: u64, code: u16) -> Shown {
    trial_forms::of_five(form as usize, 0, i, size, code as u64, 0, 0)
}

fn mirroring_entry(s: &[u8], i: usize) -> Option<Shown> {
    let answer = route_mirroring::parse_route_mirroring(s).ok()?;
    let tlv = answer.message.tlvs.get(i)?;
    Some(mirroring_tlv(i as u64, *tlv))
}

fn mirroring_tlv(i: u64, tlv: RouteMirroringTlv) -> Shown {
    let size = tlv.info_len as u64;
    match tlv.value() {
        RouteMirroringValue::BgpMessage(view) => text_entry(Form::BgpMessage, i, size, view),
        RouteMirroringValue::Information(info) => code_entry(
            Form::Information,
            i,
            size,
            info.code(),
        ),
    }
}

fn peer_up_entry(arguments: Arguments, s: &[u8], i: usize) -> Option<Shown> {
    let afi = arguments.afi;
    let peer_type = arguments.peer_type;
    let answer = peer_up_notification::parse_peer_up_notification(s, afi, peer_type).ok()?;
    let tlv = answer.message.tlvs.get(i)?;
    Some(peer_up_tlv(i as u64, *tlv))
}

fn peer_up_tlv(i: u64, tlv: PeerUpNotificationTlv) -> Shown {
    let form = match tlv.info_type() {
        PeerUpTlvType::Unknown(_) => Form::UnknownTlv,
        _ => Form::NamedTlv,
    };
    tlv_entry(
        form,
        i,
        tlv.kind as u64,
        tlv.info_len as u64,
        tlv.info_value(),
    )
}

// The answer to two headers, one behind the other: are they equal, and are they without their times?
pub fn equal(body: &[u8]) -> Shown {
    if body.len() != 84 {
        return trial_forms::bare(Form::BadLine as usize);
    }
    let (first, second) = body.split_at(42);
    same(first, second).unwrap_or_else(trial_forms::refused)
}

fn same(first: &[u8], second: &[u8]) -> Result<Shown, Refusal> {
    let one = per_peer_header::parse_per_peer_header(first)?.header;
    let other = per_peer_header::parse_per_peer_header(second)
        .map_err(behind_header)?
        .header;
    let stripped = one.strip_timestamp();
    let without_time = stripped.equals(other.strip_timestamp());
    let form = same_form(one.equals(other), without_time);
    Ok(trial_forms::bare(form as usize))
}

// What is refused behind a header: the place counts from the header's start, and what is missing stays.
pub fn behind_header(refusal: Refusal) -> Refusal {
    Refusal {
        place: refusal.place.wrapping_add(42),
        ..refusal
    }
}

fn same_form(with_time: bool, without_time: bool) -> Form {
    match (with_time, without_time) {
        (true, true) => Form::YesYes,
        (true, false) => Form::YesNo,
        (false, true) => Form::NoYes,
        (false, false) => Form::NoNo,
    }
}

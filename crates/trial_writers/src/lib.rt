// The ten writers behind one call: a record is read, changed or left as it is, and written.
#![tactic(auto)]

use trial_forms::{Arguments, Kind};
use wire::Refusal;

// The change that leaves a record as it is.
pub const UNCHANGED: u8 = trial_changes::UNCHANGED;

// Writes the record that a reader finds in a slice; where it finds none, the answer is its refusal. The record's views point into a buffer that begins
// with that slice. The changes are those of the record's kind in `trial_changes`.
pub fn write(
    kind: Kind,
    arguments: Arguments,
    change: u8,
    s: &[u8],
    buffer: &[u8],
    out: &mut [u8],
) -> Result<usize, Refusal> {
    match kind {
        Kind::Common => write_common(change, s, out),
        Kind::PerPeer => write_per_peer(change, s, out),
        Kind::OpenBmp => write_openbmp(change, s, buffer, out),
        Kind::Stats => write_stats(change, s, buffer, out),
        Kind::Initiation => write_initiation(change, s, buffer, out),
        Kind::Termination => write_termination(change, s, buffer, out),
        Kind::Mirroring => write_mirroring(change, s, buffer, out),
        Kind::PeerUp => write_peer_up(arguments, change, s, buffer, out),
        Kind::PeerDown => write_peer_down(change, s, buffer, out),
        Kind::Monitoring => write_monitoring(arguments, change, s, buffer, out),
    }
}

fn write_common(change: u8, s: &[u8], out: &mut [u8]) -> Result<usize, Refusal> {
    let (header, _) = common_header::parse_bmp_common_header(s)?;
    let changed = trial_changes::changed_common(header, change);
    common_header_writer::write_bmp_common_header(changed, out)
}

fn write_per_peer(change: u8, s: &[u8], out: &mut [u8]) -> Result<usize, Refusal> {
    let answer = per_peer_header::parse_per_peer_header(s)?;
    let changed = trial_changes::changed_per_peer(answer.header, change);
    per_peer_header_writer::write_per_peer_header(changed, out)
}

fn write_openbmp(change: u8, s: &[u8], buffer: &[u8], out: &mut [u8]) -> Result<usize, Refusal> {
    let answer = openbmp::parse_openbmp_header(s)?;
    let changed = trial_changes::changed_openbmp(answer.header, change);
    openbmp_writer::write_openbmp_header(changed, buffer, out)
}

fn write_peer_down(change: u8, s: &[u8], buffer: &[u8], out: &mut [u8]) -> Result<usize, Refusal> {
    let (notification, _) = peer_down_notification::parse_peer_down_notification(s)?;
    let changed = trial_changes::changed_peer_down(notification, change);
    peer_down_notification_writer::write_peer_down_notification(changed, buffer, out)
}

fn write_monitoring(
    arguments: Arguments,
    change: u8,
    s: &[u8],
    buffer: &[u8],
    out: &mut [u8],
) -> Result<usize, Refusal> {
    let asn_len = arguments.asn_len;
    let peer_type = arguments.peer_type;
    let (message, _, _) = route_monitoring::parse_route_monitoring(s, asn_len, peer_type)?;
    let changed = trial_changes::changed_monitoring(message, change);
    route_monitoring_writer::write_route_monitoring(changed, buffer, out)
}

fn write_stats(change: u8, s: &[u8], buffer: &[u8], out: &mut [u8]) -> Result<usize, Refusal> {
    let answer = stats_report::parse_stats_report(s)?;
    let changed = trial_changes::changed_stats(answer.report, change);
    stats_report_writer::write_stats_report(changed, buffer, out)
}

// Whether a value and a length can be written that are handed to the writer of values apart, made of the first counter that a reader finds in a slice.
pub fn is_value_writable(trial: u8, s: &[u8], buffer_length: usize) -> bool {
    let Ok(answer) = stats_report::parse_stats_report(s) else {
        return false;
    };
    let counter = answer.report.counters[0];
    stats_data_writer::data_writable(
        counter.kind,
        trial_changes::length_apart(counter, trial),
        trial_changes::value_apart(counter, trial),
        buffer_length,
    )
}

fn write_initiation(change: u8, s: &[u8], buffer: &[u8], out: &mut [u8]) -> Result<usize, Refusal> {
    let answer = initiation_message::parse_initiation_message(s)?;
    let changed = trial_changes::changed_initiation(answer.message, change);
    initiation_message_writer::write_initiation_message(changed, buffer, out)
}

fn write_termination(
    change: u8,
    s: &[u8],
    buffer: &[u8],
    out: &mut [u8],
) -> Result<usize, Refusal> {
    let answer = termination_message::parse_termination_message(s)?;
    let changed = trial_changes::changed_termination(answer.message, change);
    termination_message_writer::write_termination_message(changed, buffer, out)
}

fn write_mirroring(change: u8, s: &[u8], buffer: &[u8], out: &mut [u8]) -> Result<usize, Refusal> {
    let answer = route_mirroring::parse_route_mirroring(s)?;
    let changed = trial_changes::changed_mirroring(answer.message, change);
    route_mirroring_writer::write_route_mirroring(changed, buffer, out)
}

fn write_peer_up(
    arguments: Arguments,
    change: u8,
    s: &[u8],
    buffer: &[u8],
    out: &mut [u8],
) -> Result<usize, Refusal> {
    let afi = arguments.afi;
    let peer_type = arguments.peer_type;
    let answer = peer_up_notification::parse_peer_up_notification(s, afi, peer_type)?;
    let changed = trial_changes::changed_peer_up(answer.message, change);
    peer_up_notification_writer::write_peer_up_notification(changed, buffer, out)
}

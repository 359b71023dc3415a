// The ten readers behind one call, and the splitter: what each answers as plain numbers, with the form that they are printed by. Those of a
// refusal are its number, its place and what is missing, those of a good answer the stop, the tail's start and the fields.
#![tactic(auto)]

use models::{Afi, AsnLength};
use numbers::WireNumber;
use per_peer_record::BmpPerPeerHeader;
use splitter::Split;
use trial_forms::{Arguments, Form, Kind, Shown};
use wire::Refusal;

pub fn read(kind: Kind, arguments: Arguments, s: &[u8]) -> Shown {
    let shown = match kind {
        Kind::Common => read_common(s),
        Kind::PerPeer => read_per_peer(s),
        Kind::OpenBmp => read_openbmp(s),
        Kind::Stats => read_stats(s),
        Kind::Initiation => read_initiation(s),
        Kind::Termination => read_termination(s),
        Kind::Mirroring => read_mirroring(s),
        Kind::PeerUp => read_peer_up(arguments, s),
        Kind::PeerDown => read_peer_down(s),
        Kind::Monitoring => read_monitoring(arguments, s),
    };
    shown.unwrap_or_else(trial_forms::refused)
}

fn read_common(s: &[u8]) -> Result<Shown, Refusal> {
    let (header, stop) = common_header::parse_bmp_common_header(s)?;
    let stop = stop as u64;
    let kind = common_header::kind_of(header.msg_type) as u64;
    let version = header.version as u64;
    let length = header.msg_len as u64;
    Ok(trial_forms::of_five(Form::Common as usize, 0, stop, stop, version, length, kind))
}

fn read_per_peer(s: &[u8]) -> Result<Shown, Refusal> {
    let answer = per_peer_header::parse_per_peer_header(s)?;
    let header = answer.header;
    let stop = answer.stop as u64;
    let numbers = [
        stop,
        stop,
        answer.warnings as u64,
        header.peer_type.number() as u64,
        header.peer_flags.0 as u64,
        header.peer_distinguisher.0,
        family(header.peer_ip.afi),
        half(header.peer_ip.octets, 0),
        half(header.peer_ip.octets, 8),
        header.peer_asn.0 as u64,
        as_bits(header),
        header.peer_bgp_id.0 as u64,
        header.seconds as u64,
        header.microseconds as u64,
        bits_of(header.timestamp),
        0,
    ];
    let form = match header.peer_time() {
        None => Form::TimelessPeer,
        Some(_) => Form::TimedPeer,
    };
    Ok(Shown {
        form: form as usize,
        count: 0,
        numbers,
    })
}

fn as_bits(header: BmpPerPeerHeader) -> u64 {
    match header.asn_length() {
        AsnLength::Bits16 => 16,
        AsnLength::Bits32 => 32,
    }
}

fn family(afi: Afi) -> u64 {
    match afi {
        Afi::Ipv4 => 4,
        Afi::Ipv6 => 6,
    }
}

// Eight of an address's sixteen bytes, as a number.
fn half(octets: [u8; 16], at: usize) -> u64 {
    u64::read_at(&octets, at)
}

// A NaN has no bits that can be relied on; no f64 of two words is one.
fn bits_of(timestamp: f64) -> u64 {
    if timestamp == timestamp {
        return timestamp.to_bits();
    }
    0
}

fn read_openbmp(s: &[u8]) -> Result<Shown, Refusal> {
    let answer = openbmp::parse_openbmp_header(s)?;
    let header = answer.header;
    let stop = answer.stop as u64;
    let numbers = [
        stop,
        stop,
        header.header_len as u64,
        header.msg_len as u64,
        header.seconds as u64,
        header.microseconds as u64,
        bits_of(header.timestamp),
        header.admin_id.place as u64,
        header.admin_id.length as u64,
        family(header.router_ip.afi),
        half(header.router_ip.octets, 0),
        half(header.router_ip.octets, 8),
        header.router_group.place as u64,
        header.router_group.length as u64,
        0,
        0,
    ];
    Ok(Shown {
        form: Form::OpenBmp as usize,
        count: 0,
        numbers,
    })
}

fn read_peer_down(s: &[u8]) -> Result<Shown, Refusal> {
    let (notification, stop) = peer_down_notification::parse_peer_down_notification(s)?;
    let stop = stop as u64;
    let reason = notification.reason.number() as u64;
    let shown = match notification.data {
        None => trial_forms::of_five(Form::PeerDown as usize, 0, stop, stop, reason, 0, 0),
        Some(view) => {
            let place = view.place as u64;
            let length = view.length as u64;
            trial_forms::of_five(
                Form::PeerDownData as usize,
                0,
                stop,
                stop,
                reason,
                place,
                length,
            )
        }
    };
    Ok(shown)
}

fn read_monitoring(arguments: Arguments, s: &[u8]) -> Result<Shown, Refusal> {
    let (message, stop, warnings) = route_monitoring::parse_route_monitoring(
        s,
        arguments.asn_len,
        arguments.peer_type,
    )?;
    let stop = stop as u64;
    let place = message.bgp_message.place as u64;
    let length = message.bgp_message.length as u64;
    Ok(trial_forms::of_five(
        Form::Monitoring as usize,
        0,
        stop,
        stop,
        warnings as u64,
        place,
        length,
    ))
}

fn read_peer_up(arguments: Arguments, s: &[u8]) -> Result<Shown, Refusal> {
    let answer = peer_up_notification::parse_peer_up_notification(
        s,
        arguments.afi,
        arguments.peer_type,
    )?;
    let message = answer.message;
    let stop = answer.stop as u64;
    let numbers = [
        stop,
        stop,
        answer.warnings as u64,
        family(message.local_addr.afi),
        half(message.local_addr.octets, 0),
        half(message.local_addr.octets, 8),
        message.local_port as u64,
        message.remote_port as u64,
        message.sent_open.place as u64,
        message.sent_open.length as u64,
        message.received_open.place as u64,
        message.received_open.length as u64,
        0,
        0,
        0,
        0,
    ];
    Ok(Shown {
        form: Form::PeerUp as usize,
        count: message.count,
        numbers,
    })
}

fn read_stats(s: &[u8]) -> Result<Shown, Refusal> {
    let answer = stats_report::parse_stats_report(s)?;
    let stop = answer.stop as u64;
    let count = answer.report.stats_count as u64;
    Ok(trial_forms::of_five(
        Form::Stats as usize,
        answer.report.count,
        stop,
        stop,
        count,
        0,
        0,
    ))
}

fn read_initiation(s: &[u8]) -> Result<Shown, Refusal> {
    let answer = initiation_message::parse_initiation_message(s)?;
    Ok(table(answer.stop, answer.tail, answer.message.count))
}

fn read_termination(s: &[u8]) -> Result<Shown, Refusal> {
    let answer = termination_message::parse_termination_message(s)?;
    Ok(table(answer.stop, answer.tail, answer.message.count))
}

fn read_mirroring(s: &[u8]) -> Result<Shown, Refusal> {
    let answer = route_mirroring::parse_route_mirroring(s)?;
    Ok(table(answer.stop, answer.stop, answer.message.count))
}

fn table(stop: usize, tail: usize, count: usize) -> Shown {
    trial_forms::of_five(
        Form::Tlvs as usize,
        count,
        stop as u64,
        tail as u64,
        0,
        0,
        0,
    )
}

pub fn split(s: &[u8]) -> Shown {
    match splitter::split_message(s) {
        Ok(Split::Message(header, message)) => {
            let kind = common_header::kind_of(header.msg_type);
            split_off(Form::Split, message.length as u64, header.msg_len, kind)
        }
        Ok(Split::Skipped(fields, message)) => {
            split_off(
                Form::Skipped,
                message.length as u64,
                fields.msg_len,
                fields.kind,
            )
        }
        Err(refusal) => trial_forms::refused(refusal),
    }
}

fn split_off(form: Form, stop: u64, msg_len: u32, kind: u8) -> Shown {
    trial_forms::of_five(form as usize, 0, stop, stop, msg_len as u64, kind as u64, 0)
}

// What is done to a record before it is written, so that each item of the lists of what is not writable is met by a record that no reader shows
// (docs/REPLAY.md, "Records"). What a change does not concern it leaves as it is.
#![tactic(auto)]

use common_header::BmpCommonHeader;
use initiation_message::{InitiationMessage, InitiationTlv};
use models::{Afi, Asn, IpAddr};
use openbmp::OpenBmpHeader;
use peer_down_notification::{PeerDownNotification, PeerDownReason};
use peer_up_notification::{PeerUpNotification, PeerUpNotificationTlv};
use per_peer_record::BmpPerPeerHeader;
use per_peer_type::{BmpPeerType, PerPeerFlags};
use route_mirroring::{RouteMirroring, RouteMirroringTlv};
use route_monitoring::RouteMonitoring;
use stats_data::StatsData;
use stats_report::{StatCounter, StatsReport};
use termination_message::{TerminationMessage, TerminationTlv};
use trial_forms::Kind;
use wire::View;

// No change, and one byte more of a body's first value that is a view. From FIRST on each kind of record has changes of its own.
pub const UNCHANGED: u8 = 0;

pub const LONGER: u8 = 1;

pub const FIRST: u8 = 2;

// A place that lies outside every buffer.
const OUTSIDE: u32 = u32::MAX;

// One byte more than two bytes can say, and one less than a BGP message has.
const TOO_LARGE: usize = 65_536;

const TOO_SHORT: u16 = 18;

// One TLV more, and one counter more, than a table holds.
const TOO_MANY_TLVS: usize = 33;

const TOO_MANY_COUNTERS: u32 = 65;

// No two words give it: where both are zero, the time is 0.0.
const NO_TIME: f64 = -0.0;

// The number after the last change of a kind.
pub fn end_of(kind: Kind) -> u8 {
    match kind {
        Kind::Common => 3,
        Kind::PerPeer => 7,
        Kind::OpenBmp => 11,
        Kind::Stats => 9,
        Kind::Initiation => 5,
        Kind::Termination => 8,
        Kind::Mirroring => 8,
        Kind::PeerUp => 13,
        Kind::PeerDown => 6,
        Kind::Monitoring => 4,
    }
}

pub fn changed_common(before: BmpCommonHeader, change: u8) -> BmpCommonHeader {
    let mut header = before;
    if change == 2 {
        header.version = 4;
    }
    header
}

// ---- the per-peer header

pub fn changed_per_peer(before: BmpPerPeerHeader, change: u8) -> BmpPerPeerHeader {
    let mut header = before;
    match change {
        2 => header.peer_ip = with_octet(before.peer_ip, 0),
        3 => header.peer_ip = of_other_family(before.peer_ip),
        4 => return of_local_rib(before),
        5 => return with_large_asn(before),
        6 => header.timestamp = NO_TIME,
        _ => {}
    }
    header
}

// Only an IPv4 address has unused octets.
fn with_octet(before: IpAddr, place: usize) -> IpAddr {
    let mut address = before;
    if matches!(address.afi, Afi::Ipv4) && place < 16 {
        address.octets[place] = 1;
    }
    address
}

fn of_other_family(address: IpAddr) -> IpAddr {
    let afi = match address.afi {
        Afi::Ipv4 => Afi::Ipv6,
        Afi::Ipv6 => Afi::Ipv4,
    };
    IpAddr { afi, ..address }
}

fn of_local_rib(before: BmpPerPeerHeader) -> BmpPerPeerHeader {
    BmpPerPeerHeader {
        peer_type: BmpPeerType::LocalRib,
        ..before
    }
}

// Flag 0x20 says that an AS has 16 bits, and this one has more.
fn with_large_asn(before: BmpPerPeerHeader) -> BmpPerPeerHeader {
    BmpPerPeerHeader {
        peer_flags: PerPeerFlags(before.peer_flags.0 | 0x20),
        peer_asn: Asn(65_536),
        ..before
    }
}

// ---- OpenBMP

pub fn changed_openbmp(before: OpenBmpHeader, change: u8) -> OpenBmpHeader {
    let mut header = before;
    match change {
        2 => header.major_version = 2,
        3 => header.minor_version = 8,
        4 => header.object_type = 13,
        5 => header.timestamp = NO_TIME,
        _ => return with_changed_parts(before, change),
    }
    header
}

fn with_changed_parts(before: OpenBmpHeader, change: u8) -> OpenBmpHeader {
    let mut header = before;
    match change {
        6 => header.router_ip = with_octet(before.router_ip, 15),
        7 => header.admin_id = outside(before.admin_id),
        8 => header.router_group = outside(before.router_group),
        9 => header.admin_id = of_length(before.admin_id, TOO_LARGE),
        10 => header.router_group = of_length(before.router_group, TOO_LARGE),
        _ => {}
    }
    header
}

fn outside(view: View) -> View {
    View {
        place: OUTSIDE as usize,
        ..view
    }
}

fn of_length(view: View, length: usize) -> View {
    View { length, ..view }
}

fn longer(view: View) -> View {
    of_length(view, view.length.wrapping_add(1))
}

// ---- Statistics

pub fn changed_stats(before: StatsReport, change: u8) -> StatsReport {
    let mut report = before;
    match change {
        2 => {
            report.count = TOO_MANY_COUNTERS as usize;
            report.stats_count = TOO_MANY_COUNTERS;
        }
        3 => report.stats_count = before.stats_count.wrapping_add(1),
        _ => report.counters[0] = changed_counter(before.counters[0], change),
    }
    report
}

// What a counter is goes by its length: 4 is a Counter, 11 has an AFI and a SAFI, and what is not 4, 8 or 11 is raw.
fn changed_counter(before: StatCounter, change: u8) -> StatCounter {
    match before.stat_len {
        4 => changed_number(before, change),
        8 => with_unused_family(before, change),
        11 => changed_gauge(before, change),
        _ => changed_raw(before, change),
    }
}

fn changed_number(before: StatCounter, change: u8) -> StatCounter {
    let mut counter = with_unused_family(before, change);
    if change == 4 {
        counter.value = 4_294_967_296;
    }
    counter
}

fn with_unused_family(before: StatCounter, change: u8) -> StatCounter {
    let mut counter = before;
    match change {
        6 => counter.afi = 1,
        7 => counter.safi = 1,
        _ => {}
    }
    counter
}

fn changed_gauge(before: StatCounter, change: u8) -> StatCounter {
    let mut counter = before;
    if change == 5 {
        counter.safi = 256;
    }
    counter
}

fn changed_raw(before: StatCounter, change: u8) -> StatCounter {
    let mut counter = with_unused_family(before, change);
    match change {
        LONGER => counter.stat_len = before.stat_len.wrapping_add(1),
        8 => counter.value = OUTSIDE as u64,
        _ => {}
    }
    counter
}

// A value that need not fit the counter's length, and a length that need not fit its value: in a counter the length alone says what the value is.
pub fn value_apart(counter: StatCounter, trial: u8) -> StatsData {
    match trial {
        3 => raw_value(0, counter.stat_len),
        4 => raw_value(OUTSIDE, counter.stat_len),
        _ => counter.stat_data(),
    }
}

fn raw_value(place: u32, length: u16) -> StatsData {
    StatsData::Unknown(View {
        place: place as usize,
        length: length as usize,
    })
}

pub fn length_apart(counter: StatCounter, trial: u8) -> u16 {
    match trial {
        2 => counter.stat_len.wrapping_add(1),
        _ => counter.stat_len,
    }
}

// ---- Initiation

pub fn changed_initiation(before: InitiationMessage, change: u8) -> InitiationMessage {
    let mut message = before;
    match change {
        2 => message.count = TOO_MANY_TLVS,
        4 => return with_empty_last(before),
        _ => message.tlvs[0] = changed_initiation_tlv(before.tlvs[0], change),
    }
    message
}

fn changed_initiation_tlv(before: InitiationTlv, change: u8) -> InitiationTlv {
    let mut tlv = before;
    match change {
        LONGER => tlv.info_len = before.info_len.wrapping_add(1),
        3 => tlv.place = OUTSIDE,
        _ => {}
    }
    tlv
}

fn with_empty_last(before: InitiationMessage) -> InitiationMessage {
    let mut message = before;
    if let Some(last) = message.tlvs.get_mut(before.count.wrapping_sub(1)) {
        last.info_len = 0;
    }
    message
}

// ---- Termination

pub fn changed_termination(before: TerminationMessage, change: u8) -> TerminationMessage {
    let mut message = before;
    match change {
        2 => message.count = TOO_MANY_TLVS,
        5 => return with_changed_last(before),
        _ => message.tlvs[0] = changed_termination_tlv(before.tlvs[0], change),
    }
    message
}

// Type 0 is a String, type 1 a Reason.
fn changed_termination_tlv(before: TerminationTlv, change: u8) -> TerminationTlv {
    let mut tlv = before;
    if change == 3 {
        tlv.kind = 2;
        return tlv;
    }
    if before.kind == 0 {
        return changed_string(before, change);
    }
    changed_reason(before, change)
}

fn changed_string(before: TerminationTlv, change: u8) -> TerminationTlv {
    let mut tlv = before;
    match change {
        LONGER => tlv.info_len = before.info_len.wrapping_add(1),
        4 => tlv.number = OUTSIDE,
        5 => tlv.info_len = 0,
        _ => {}
    }
    tlv
}

fn changed_reason(before: TerminationTlv, change: u8) -> TerminationTlv {
    let mut tlv = before;
    match change {
        6 => tlv.info_len = 1,
        7 => tlv.number = 5,
        _ => {}
    }
    tlv
}

// The one change that is of the last TLV.
fn with_changed_last(before: TerminationMessage) -> TerminationMessage {
    let mut message = before;
    if let Some(last) = message.tlvs.get_mut(before.count.wrapping_sub(1)) {
        *last = changed_termination_tlv(*last, 5);
    }
    message
}

// ---- Route Mirroring

pub fn changed_mirroring(before: RouteMirroring, change: u8) -> RouteMirroring {
    let mut message = before;
    match change {
        2 => message.count = TOO_MANY_TLVS,
        _ => message.tlvs[0] = changed_mirroring_tlv(before.tlvs[0], change),
    }
    message
}

// Type 0 is a BGP message, type 1 is information.
fn changed_mirroring_tlv(before: RouteMirroringTlv, change: u8) -> RouteMirroringTlv {
    let mut tlv = before;
    if change == 3 {
        tlv.kind = 2;
        return tlv;
    }
    if before.kind == 0 {
        return changed_mirrored_message(before, change);
    }
    changed_information(before, change)
}

fn changed_mirrored_message(before: RouteMirroringTlv, change: u8) -> RouteMirroringTlv {
    let mut tlv = before;
    match change {
        LONGER => tlv.info_len = before.info_len.wrapping_add(1),
        4 => tlv.info_len = TOO_SHORT,
        5 => tlv.number = OUTSIDE,
        _ => {}
    }
    tlv
}

fn changed_information(before: RouteMirroringTlv, change: u8) -> RouteMirroringTlv {
    let mut tlv = before;
    match change {
        6 => tlv.info_len = 3,
        7 => tlv.number = 2,
        _ => {}
    }
    tlv
}

// ---- Peer Up

pub fn changed_peer_up(before: PeerUpNotification, change: u8) -> PeerUpNotification {
    let mut message = before;
    match change {
        2 => message.local_addr = with_octet(before.local_addr, 0),
        3..=6 => message.sent_open = changed_open(before.sent_open, change),
        7..=10 => message.received_open = changed_open(before.received_open, change),
        _ => return with_changed_tlvs(before, change),
    }
    message
}

fn changed_open(view: View, change: u8) -> View {
    match change {
        3 | 7 => outside(view),
        4 | 8 => of_length(view, TOO_SHORT as usize),
        5 | 9 => longer(view),
        _ => of_length(view, TOO_LARGE),
    }
}

fn with_changed_tlvs(before: PeerUpNotification, change: u8) -> PeerUpNotification {
    let mut message = before;
    match change {
        11 => message.count = TOO_MANY_TLVS,
        _ => message.tlvs[0] = changed_peer_up_tlv(before.tlvs[0], change),
    }
    message
}

fn changed_peer_up_tlv(before: PeerUpNotificationTlv, change: u8) -> PeerUpNotificationTlv {
    let mut tlv = before;
    match change {
        LONGER => tlv.info_len = before.info_len.wrapping_add(1),
        12 => tlv.place = OUTSIDE,
        _ => {}
    }
    tlv
}

// ---- Peer Down

pub fn changed_peer_down(before: PeerDownNotification, change: u8) -> PeerDownNotification {
    match before.data {
        None => before,
        Some(view) => PeerDownNotification {
            reason: given_reason(before.reason, change),
            data: changed_data(view, change),
        },
    }
}

fn given_reason(before: PeerDownReason, change: u8) -> PeerDownReason {
    match change {
        2 => PeerDownReason::RemoteSystemsClosedNoData,
        _ => before,
    }
}

fn changed_data(view: View, change: u8) -> Option<View> {
    match change {
        LONGER => Some(longer(view)),
        3 => None,
        4 => Some(of_length(view, 0)),
        5 => Some(outside(view)),
        _ => Some(view),
    }
}

// ---- Route Monitoring

pub fn changed_monitoring(before: RouteMonitoring, change: u8) -> RouteMonitoring {
    let mut message = before;
    match change {
        LONGER => message.bgp_message = longer(before.bgp_message),
        2 => message.bgp_message = outside(before.bgp_message),
        3 => message.bgp_message = of_length(before.bgp_message, TOO_SHORT as usize),
        _ => {}
    }
    message
}

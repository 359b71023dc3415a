// Prints the counters of the BMP stream on standard input: an example of a program over these crates (docs/USING.md).
//
// Each line has the peer's type, distinguisher, address and BGP ID, and then the type of a counter and its value.
#![tactic(auto)]

ghost use Rattle.std.specs.Prelude.{◌≡◌, ◌≤◌, IfOk, length, Ok};
ghost use Rattle.splitter.specs.Shown.{message_of};

use common_header::{BmpMsgType, COMMON_HEADER};
use models::{Afi, IpAddr};
use per_peer_record::BmpPerPeerHeader;
use splitter::Split;
use stats_data::StatsData;
use stats_report::StatCounter;
use std::io;
use std::io::Read;
use wire::View;

fn main(rt: HostRuntime) -> io::Result<()> {
    let mut input = [0u8; 65_536];
    let n = read_full(&mut rt.reader(), &mut input)?;
    print_stream(&rt, &input[..n])
}

// Reads until the buffer is full or the input ends, and answers how many bytes it put at the buffer's start.
fn read_full(reader: &mut impl Read, buffer: &mut [u8]) -> io::Result<usize>
    ensures { IfOk result (λ n. n ≤ length buffer.new) }
{
    let mut done = 0;
    while done < buffer.len() {
        match reader.read(&mut buffer[done..])? {
            0 => break,
            n => done += n,
        }
    }
    Ok(done)
}

// One message after the other, skipped ones too, up to the end or to the first that is refused.
fn print_stream(rt: &impl Print, s: &[u8]) -> io::Result<()> {
    let mut rest = s;
    while let Ok(split) = splitter::split_message(rest) {
        let message = message_of(split);
        if let Split::Message(header, _) = split {
            print_message(rt, header.msg_type, message.part(rest))?;
        }
        rest = &rest[message.length..];
    }
    Ok(())
}

fn message_of(split: Split) -> View
    ensures { result ≡ message_of (Ok split) }
{
    match split {
        Split::Message(_, message) => message,
        Split::Skipped(_, message) => message,
    }
}

fn print_message(rt: &impl Print, msg_type: BmpMsgType, message: &[u8]) -> io::Result<()> {
    let BmpMsgType::StatisticsReport = msg_type else {
        return Ok(());
    };
    let body = behind(message, COMMON_HEADER);
    match per_peer_header::parse_per_peer_header(body) {
        Ok(answer) => print_report(rt, answer.header, behind(body, answer.stop)),
        Err(_) => Ok(()),
    }
}

fn print_report(rt: &impl Print, peer: BmpPerPeerHeader, body: &[u8]) -> io::Result<()> {
    let Ok(answer) = stats_report::parse_stats_report(body) else {
        return Ok(());
    };
    for counter in answer.report.counters.iter().take(answer.report.count) {
        print_counter(rt, peer, *counter)?;
    }
    Ok(())
}

fn print_counter(rt: &impl Print, peer: BmpPerPeerHeader, counter: StatCounter) -> io::Result<()> {
    print!(rt;
        "{} {} ",
        peer.peer_type.number(),
        peer.peer_distinguisher.0
    )?;
    print_address(rt, peer.peer_ip)?;
    print!(rt; " {} {} ", peer.peer_bgp_id.0, counter.kind)?;
    match counter.stat_data() {
        StatsData::Counter(n) => println!(rt; "{n}"),
        StatsData::Gauge(n) => println!(rt; "{n}"),
        StatsData::AfiSafiGauge(_, _, n) => println!(rt; "{n}"),
        StatsData::Unknown(_) => println!(rt; "-"),
    }
}

// Octet by octet: the last four of an IPv4 address, all sixteen of an IPv6 address.
fn print_address(rt: &impl Print, address: IpAddr) -> io::Result<()> {
    let first = match address.afi {
        Afi::Ipv4 => 12,
        Afi::Ipv6 => 0,
    };
    print!(rt; "{}", address.octets[first])?;
    for octet in &address.octets[first + 1..] {
        print!(rt; ".{octet}")?;
    }
    Ok(())
}

// What stands behind the first n bytes.
fn behind(s: &[u8], n: usize) -> &[u8] {
    s.get(n..).unwrap_or(b"")
}

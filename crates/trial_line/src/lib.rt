// A line for the programs that take lines, taken apart (docs/REPLAY.md, "Input").
#![tactic(auto)]

ghost use Rattle.std.specs.Prelude.{◌≡◌, ◌/◌, length};
ghost use Rattle.trial_line.specs.Words.{word_of, word_in};
ghost use Rattle.trial_line.specs.Line.{reader_of, verb_of, peer_arguments, session_arguments, no_arguments, reader_arguments, arguments_of, command_of, line_of, asked_of, asked_into};

use models::{Afi, AsnLength};
use per_peer_type::BmpPeerType;
use trial_forms::{Arguments, Kind};
use wire::View;

#[derive(Clone, Copy)]
pub enum Verb {
    Read(Kind),
    Rewrite(Kind),
    Split,
    Equal,
}

// A verb, its arguments, and where in the line the text of its bytes stands.
#[derive(Clone, Copy)]
pub struct Command {
    pub verb: Verb,
    pub arguments: Arguments,
    pub text: View,
}

// A line that is no command.
#[derive(Clone, Copy)]
pub struct BadLine;

// Takes a line apart, and puts its bytes at the start of a buffer, which bounds their number: a command and how many bytes its text writes, or nothing
// where the line is empty.
pub fn ask(line: &[u8], bytes: &mut [u8]) -> Result<Option<(Command, usize)>, BadLine>
    ensures value { result ≡ asked_of line.now (length bytes.old) }
    ensures bytes_after { bytes.new ≡ asked_into line.now bytes.old }
{
    let Some(command) = take_apart(line)? else {
        return Ok(None);
    };
    let text = command.text;
    let count = trial_hex::unhex(text.part(line), bytes).ok_or(BadLine)?;
    Ok(Some((command, count)))
}

fn take_apart(line: &[u8]) -> Result<Option<Command>, BadLine>
    ensures { result ≡ line_of line.now }
{
    if line.is_empty() {
        return Ok(None);
    }
    let first = trial_hex::place_of(line, b' ');
    if line.len() <= first {
        return Err(BadLine);
    }
    let rest = &line[first + 1..];
    let second = trial_hex::place_of(rest, b' ');
    if rest.len() <= second {
        return Err(BadLine);
    }
    let text = View {
        place: first + second + 2,
        length: rest.len() - second - 1,
    };
    let command = command_of(verb_of(&line[..first]), &rest[..second], text).ok_or(BadLine)?;
    Ok(Some(command))
}

fn command_of(verb: Option<Verb>, arguments: &[u8], text: View) -> Option<Command>
    ensures { result ≡ command_of verb text arguments.now }
{
    let verb = verb?;
    let arguments = arguments_of(verb, arguments)?;
    Some(Command {
        verb,
        arguments,
        text,
    })
}

fn verb_of(text: &[u8]) -> Option<Verb>
    ensures { result ≡ verb_of text.now }
{
    if text == &b"split"[..] {
        return Some(Verb::Split);
    }
    if text == &b"equal"[..] {
        return Some(Verb::Equal);
    }
    match text.strip_prefix(b"rewrite-") {
        Some(reader) => reader_of(reader).map(Verb::Rewrite),
        None => reader_of(text).map(Verb::Read),
    }
}

fn reader_of(text: &[u8]) -> Option<Kind>
    ensures { result ≡ reader_of text.now }
{
    let readers: [(&[u8], Kind); 10] = [
        (b"common", Kind::Common),
        (b"perpeer", Kind::PerPeer),
        (b"openbmp", Kind::OpenBmp),
        (b"stats", Kind::Stats),
        (b"initiation", Kind::Initiation),
        (b"termination", Kind::Termination),
        (b"mirroring", Kind::Mirroring),
        (b"peerup", Kind::PeerUp),
        (b"peerdown", Kind::PeerDown),
        (b"monitoring", Kind::Monitoring),
    ];
    readers.iter().find(|row| text == row.0).map(|row| row.1)
}

// The place of a text among words that stand in 14 bytes each, with spaces behind them; the number of words where it is none of them.
pub fn place_among(words: &[u8], text: &[u8]) -> usize
    ensures { result ≡ word_in (length words.now / 14) words.now text.now }
{
    words
        .chunks_exact(14)
        .position(|cell| text == word_of(cell))
        .unwrap_or(words.len() / 14)
}

fn word_of(cell: &[u8]) -> &[u8]
    ensures { result.now ≡ word_of cell.now }
{
    &cell[..trial_hex::place_of(cell, b' ')]
}

fn arguments_of(verb: Verb, text: &[u8]) -> Option<Arguments>
    ensures { result ≡ arguments_of verb text.now }
{
    match verb {
        Verb::Read(reader) | Verb::Rewrite(reader) => reader_arguments(reader, text),
        Verb::Split | Verb::Equal => no_arguments(text),
    }
}

fn reader_arguments(kind: Kind, text: &[u8]) -> Option<Arguments>
    ensures { result ≡ reader_arguments kind text.now }
{
    match kind {
        Kind::Mirroring | Kind::Monitoring => peer_arguments(Afi::Ipv4, text),
        Kind::PeerUp => session_arguments(text),
        _ => no_arguments(text),
    }
}

// What a reader is told that takes no arguments has no say.
fn no_arguments(text: &[u8]) -> Option<Arguments>
    ensures { result ≡ no_arguments text.now }
{
    if text == &b"-"[..] {
        Some(Arguments {
            afi: Afi::Ipv4,
            asn_len: AsnLength::Bits16,
            peer_type: BmpPeerType::Global,
        })
    } else {
        None
    }
}

fn session_arguments(text: &[u8]) -> Option<Arguments>
    ensures { result ≡ session_arguments text.now }
{
    if let Some(rest) = text.strip_prefix(b"afi=4,") {
        return peer_arguments(Afi::Ipv4, rest);
    }
    peer_arguments(Afi::Ipv6, text.strip_prefix(b"afi=6,")?)
}

fn peer_arguments(afi: Afi, text: &[u8]) -> Option<Arguments>
    ensures { result ≡ peer_arguments afi text.now }
{
    let peers: [(&[u8], AsnLength, BmpPeerType); 8] = [
        (b"asn=16,type=0", AsnLength::Bits16, BmpPeerType::Global),
        (b"asn=16,type=1", AsnLength::Bits16, BmpPeerType::RD),
        (b"asn=16,type=2", AsnLength::Bits16, BmpPeerType::Local),
        (b"asn=16,type=3", AsnLength::Bits16, BmpPeerType::LocalRib),
        (b"asn=32,type=0", AsnLength::Bits32, BmpPeerType::Global),
        (b"asn=32,type=1", AsnLength::Bits32, BmpPeerType::RD),
        (b"asn=32,type=2", AsnLength::Bits32, BmpPeerType::Local),
        (b"asn=32,type=3", AsnLength::Bits32, BmpPeerType::LocalRib),
    ];
    peers.iter().find(|row| text == row.0).map(|row| Arguments {
        afi,
        asn_len: row.1,
        peer_type: row.2,
    })
}

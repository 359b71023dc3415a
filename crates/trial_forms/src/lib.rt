// The kinds of records, what readers are told beside the bytes, and answers as text by forms: a form is text with marks, each of which takes the next of
// a list of numbers (docs/REPLAY.md, "Forms"). It is put piece by piece into a lent buffer, and each put answers the place after its piece; a
// piece that does not fit changes nothing.
#![tactic(auto)]

ghost use Rattle.std.specs.Prelude.{◌≡◌, ◌<◌, ◌≤◌};
ghost use Rattle.writing.specs.Write.{put_at};
ghost use Rattle.decimal.specs.Decimal.{decimal};
ghost use Rattle.trial_forms.specs.Kinds.{kind_at};
ghost use Rattle.trial_forms.specs.Shown.{is_refusal, begins_table, refusal_at, table_at, of_five, bare, refused_form, refused_as, judged_as};
ghost use Rattle.trial_forms.specs.Text.{place_after, hex_digit, hex};

use models::{Afi, AsnLength};
use per_peer_type::BmpPeerType;
use wire::{Refusal, View};

// What is read and written.
#[derive(Clone, Copy)]
pub enum Kind {
    Common,
    PerPeer,
    OpenBmp,
    Stats,
    Initiation,
    Termination,
    Mirroring,
    PeerUp,
    PeerDown,
    Monitoring,
}

// The kind of record that has this number in the order above, the last for every number above it.
pub fn kind_at(i: usize) -> Kind
    ensures { result ≡ kind_at i }
{
    match i {
        0 => Kind::Common,
        1 => Kind::PerPeer,
        2 => Kind::OpenBmp,
        3 => Kind::Stats,
        4 => Kind::Initiation,
        5 => Kind::Termination,
        6 => Kind::Mirroring,
        7 => Kind::PeerUp,
        8 => Kind::PeerDown,
        _ => Kind::Monitoring,
    }
}

// What readers are told beside the bytes. Where one takes no such argument, it has no say.
#[derive(Clone, Copy)]
pub struct Arguments {
    pub afi: Afi,
    pub asn_len: AsnLength,
    pub peer_type: BmpPeerType,
}

// What an answer or an entry is printed by, in the order of the forms' numbers.
#[derive(Clone, Copy)]
pub enum Form {
    Refused,
    Cut,
    BadLine,
    Written,
    YesYes,
    YesNo,
    NoYes,
    NoNo,
    Common,
    Split,
    Skipped,
    TimelessPeer,
    TimedPeer,
    OpenBmp,
    PeerDown,
    PeerDownData,
    Monitoring,
    PeerUp,
    Stats,
    Tlvs,
    Counter,
    Gauge,
    AfiSafiGauge,
    Raw,
    NamedTlv,
    UnknownTlv,
    String,
    Reason,
    BgpMessage,
    Information,
    TableEnd,
    Nothing,
    Done,
    NoneYet,
    Report,
    Peers,
    Peer,
}

impl Form {
    // Is it that of a refusal?
    pub fn is_refusal(self) -> bool
        ensures { result ≡ is_refusal self }
    {
        is_refusal(self as usize)
    }

    // Does a record's table follow it, entry by entry, and then its end?
    pub fn begins_table(self) -> bool
        ensures { result ≡ begins_table self }
    {
        begins_table(self as usize)
    }
}

// The text of each form, in the same order. Entries begin with a comma, but for the first of a table.
static TEXTS: [&[u8]; 37] = [
    b"refused # at #\n",
    b"refused # at # missing #\n",
    b"bad line\n",
    b"written # $\n",
    b"yes yes\n",
    b"yes no\n",
    b"no yes\n",
    b"no no\n",
    b"good stop=# tail=# warn=0 version=# length=# type=#\n",
    b"good stop=# tail=# warn=0 length=# type=#\n",
    b"skipped stop=# tail=# warn=0 length=# type=#\n",
    b"good stop=# tail=# warn=# type=# flags=% dist=@ fam=# addr=@@ as=# asbits=# id=& sec=# usec=# ts=@ time=none\n",
    b"good stop=# tail=# warn=# type=# flags=% dist=@ fam=# addr=@@ as=# asbits=# id=& sec=# usec=# ts=@ time=some\n",
    b"good stop=# tail=# warn=0 hlen=# mlen=# sec=# usec=# ts=@ admin=$ fam=# router=@@ group=$\n",
    b"good stop=# tail=# warn=0 reason=# data=none\n",
    b"good stop=# tail=# warn=0 reason=# data=some:$\n",
    b"good stop=# tail=# warn=# bgp=$\n",
    b"good stop=# tail=# warn=# fam=# local=@@ lport=# rport=# sent=$ received=$ tlvs=[",
    b"good stop=# tail=# warn=0 count=# counters=[",
    b"good stop=# tail=# warn=0 tlvs=[",
    b",#:#:!:C#",
    b",#:#:!:G#",
    b",#:#:!:A#/#/#",
    b",#:#:!:R$",
    b",#:#:N:$",
    b",#:#:U:$",
    b",0:#:$",
    b",1:#:reason#",
    b",0:#:bgp$",
    b",1:#:info#",
    b"]\n",
    b"",
    b"ok\n",
    b"none yet\n",
    b"report count=# counters=[",
    b"count=# peers=[",
    b",#/#/@/@@/&",
];

// The number of a form, the numbers that go into it, and how many entries of a table follow it.
#[derive(Clone, Copy)]
pub struct Shown {
    pub form: usize,
    pub count: usize,
    pub numbers: [u64; 16],
}

// A form with five numbers; where it has fewer marks, the last ones have no say.
pub fn of_five(form: usize, count: usize, a: u64, b: u64, c: u64, d: u64, e: u64) -> Shown
    ensures { result ≡ of_five form count a b c d e }
{
    Shown {
        form,
        count,
        numbers: [a, b, c, d, e, 0, 0, 0, 0, 0, 0, 0, 0, 0, 0, 0],
    }
}

// Is the form that has this number that of a refusal?
pub fn is_refusal(form: usize) -> bool
    ensures { result ≡ refusal_at form }
{
    form == Form::Refused as usize || form == Form::Cut as usize
}

// Does a record's table follow the form that has this number, entry by entry, and then its end?
pub fn begins_table(form: usize) -> bool
    ensures { result ≡ table_at form }
{
    form == Form::PeerUp as usize || form == Form::Stats as usize || form == Form::Tlvs as usize
}

// Puts an answer or an entry by its form; where no form has the number, it puts nothing.
pub fn put(out: &mut [u8], at: usize, shown: Shown, body: &[u8]) -> usize {
    let text = TEXTS.get(shown.form).copied().unwrap_or(b"");
    let numbers = shown.numbers;
    put_shown(out, at, text, &numbers, body)
}

// A good answer, or the refusal in its place.
pub fn judged(refusal: Refusal, shown: Shown) -> Shown
    ensures { result ≡ judged_as refusal shown }
{
    if refusal.number != wire::GOOD {
        return refused(refusal);
    }
    shown
}

// A form without numbers.
pub fn bare(form: usize) -> Shown
    ensures { result ≡ bare form }
{
    of_five(form, 0, 0, 0, 0, 0, 0)
}

pub fn refused(refusal: Refusal) -> Shown
    ensures { result ≡ refused_as refusal }
{
    of_five(
        refused_form(refusal.number),
        0,
        refusal.number as u64,
        refusal.place as u64,
        refusal.missing as u64,
        0,
        0,
    )
}

// A Cut alone says what is missing.
fn refused_form(number: u8) -> usize
    ensures { result ≡ refused_form number }
{
    if number == wire::CUT {
        Form::Cut as usize
    } else {
        Form::Refused as usize
    }
}

// Puts a text in which each mark takes the next of the numbers, or 0 where none is left.
pub fn put_shown(out: &mut [u8], at: usize, form: &[u8], numbers: &[u64], body: &[u8]) -> usize {
    let mut next = at;
    let mut rest = numbers;
    for mark in form {
        next = put_piece(out, next, *mark, rest, body);
        rest = rest.get(takes(*mark)..).unwrap_or(&[]);
    }
    next
}

fn takes(mark: u8) -> usize
    ensures { result ≤ 2 }
{
    match mark {
        b'#' | b'%' | b'&' | b'@' | b'!' | b',' => 1,
        b'$' => 2,
        _ => 0,
    }
}

fn put_piece(out: &mut [u8], at: usize, mark: u8, numbers: &[u64], body: &[u8]) -> usize {
    let n = numbers.first().copied().unwrap_or(0);
    match mark {
        b'#' => put_decimal(out, at, n),
        b'%' => put_hex_number(out, at, n, 7),
        b'&' => put_hex_number(out, at, n, 4),
        b'@' => put_hex_number(out, at, n, 0),
        b'$' => put_part(out, at, body, numbers),
        b',' => put_comma(out, at, n),
        b'!' => put_byte(out, at, n),
        _ => put_byte(out, at, mark as u64),
    }
}

fn put_byte(out: &mut [u8], at: usize, n: u64) -> usize {
    let byte = [(n % 256) as u8];
    put_text(out, at, &byte)
}

fn put_comma(out: &mut [u8], at: usize, n: u64) -> usize {
    if n == 0 {
        return at;
    }
    put_text(out, at, b",")
}

// The last bytes of the eight of a number, from this one on.
fn put_hex_number(out: &mut [u8], at: usize, n: u64, from: usize) -> usize
    requires { from ≤ 8 }
{
    let bytes = n.to_be_bytes();
    put_hex(out, at, &bytes[from..])
}

// The part of a body that the next two numbers show.
fn put_part(out: &mut [u8], at: usize, body: &[u8], numbers: &[u64]) -> usize {
    let [place, length, ..] = numbers else {
        return at;
    };
    let part = View {
        place: *place as usize,
        length: *length as usize,
    };
    put_hex(out, at, part.part(body))
}

fn put_text(out: &mut [u8], at: usize, text: &[u8]) -> usize
    ensures value { result ≡ place_after out.old at text.now }
    ensures out_after { out.new ≡ put_at out.old at text.now }
{
    if wire::left(out, at) < text.len() {
        return at;
    }
    writing::put_bytes(out, at, text);
    at + text.len()
}

// Two lower-case digits for each byte.
fn put_hex(out: &mut [u8], at: usize, bytes: &[u8]) -> usize
    ensures value { result ≡ place_after out.old at (hex bytes.now) }
    ensures out_after { out.new ≡ put_at out.old at (hex bytes.now) }
{
    if wire::left(out, at) / 2 < bytes.len() {
        return at;
    }
    for (i, byte) in bytes.iter().enumerate() {
        out[at + 2 * i] = hex_digit(*byte / 16);
        out[at + 2 * i + 1] = hex_digit(*byte % 16);
    }
    at + 2 * bytes.len()
}

fn hex_digit(d: u8) -> u8
    requires { d < 16 }
    ensures { result ≡ hex_digit d }
{
    if d < 10 { b'0' + d } else { b'a' - 10 + d }
}

// The digits of a number, with no zero in front.
fn put_decimal(out: &mut [u8], at: usize, n: u64) -> usize
    ensures value { result ≡ place_after out.old at (decimal n) }
    ensures out_after { out.new ≡ put_at out.old at (decimal n) }
{
    let room = wire::left(out, at);
    let count = decimal::put_decimal(out, at, n as usize);
    if room < count {
        return at;
    }
    at + count
}

#[cfg(test)]
mod tests {
    use super::*;

    #[test]
    fn forms_of_refusals_and_of_tables(rt: HostRuntime) {
        assert!(rt; Form::Refused.is_refusal() && Form::Cut.is_refusal());
        assert!(rt; !Form::BadLine.is_refusal() && !Form::Peer.is_refusal());
        assert!(rt;
            Form::PeerUp.begins_table() && Form::Stats.begins_table() && Form::Tlvs.begins_table()
        );
        assert!(rt; !Form::Monitoring.begins_table() && !Form::Counter.begins_table());
        assert!(rt; !is_refusal(37) && !begins_table(usize::MAX));
    }
}

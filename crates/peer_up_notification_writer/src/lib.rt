// Writing the body of a BMP Peer Up notification (RFC 7854, section 4.10), behind the per-peer header.
#![tactic(auto)]

ghost use Rattle.std.specs.Prelude.{◌≡◌, ◌+◌, ◌≤◌, length};
ghost use Rattle.std.proofs.lemmas.List.Edits.{sets};
ghost use Rattle.writing.specs.Write.{Wrote};
ghost use Rattle.tlv_table.specs.Tlvs.{one_tlv};
ghost use Rattle.tlv_table.proofs.Table.{bodied};
ghost use Rattle.peer_up_notification_writer.specs.Write.{writer, address_writable, open_writable, bytes_of, front_writable, writable, endpoint_bytes, open_bytes, entry_of};
ghost use Rattle.peer_up_notification_writer.specs.Entries.{entries};

use models::IpAddr;
use numbers::WireNumber;
use numbers_writer::PutNumber;
use peer_up_notification::{OPENS_AT, PeerUpNotification, PeerUpNotificationTlv};
use table_writer::Table;
use tlv_table::{TlvEntry, TlvValue};
use wire::{Refusal, View};

// Writes the message, whose views point into the buffer, to the front of the output. The table is judged and measured in one pass
// and written in a second, where it stands.
#[tactic(auto, using(crate::proofs::Written::too_many, crate::proofs::Written::front_bad, crate::proofs::Written::front_small))]
pub fn write_peer_up_notification(
    message: PeerUpNotification,
    buffer: &[u8],
    out: &mut [u8],
) -> Result<usize, Refusal>
    ensures { Wrote (writable message buffer.now) (bytes_of message buffer.now) out.old result out.new }
{
    let count = message.count;
    let local_addr = message.local_addr;
    let sent_open = message.sent_open;
    let received_open = message.received_open;
    if wire::TLV_PLACES < count || !front_writable(local_addr, sent_open, received_open, buffer) {
        return writing::write_answer(false, 0, out.len());
    }
    // A writable OPEN has at most 65,535 bytes, so the sum does not wrap.
    let front = OPENS_AT + (sent_open.length + received_open.length);
    let length = table_writer::write::<Tlvs>(front, &message.tlvs[..count], buffer, out)?;
    put_endpoints(out, local_addr, message.local_port, message.remote_port);
    put_opens(out, sent_open, received_open, buffer);
    Ok(length)
}

struct Tlvs;

impl Table for Tlvs {
    type Entry = PeerUpNotificationTlv;

    ghost Item = { writer.Item };

    ghost part = { writer.part };

    ghost put_item = { writer.put };

    ghost ok = { writer.ok };

    ghost size = { writer.size };

    ghost one = { λ b t. one_tlv b (entry_of t) };

    ghost bodied = { bodied entries };

    fn is_writable(tlv: PeerUpNotificationTlv, buffer_length: usize, _after: usize) -> bool {
        tlv_table::entry_writable(entry_of(tlv), buffer_length)
    }

    fn length(tlv: PeerUpNotificationTlv) -> usize {
        tlv_table::tlv_length(entry_of(tlv))
    }

    fn put(out: &mut [u8], at: usize, tlv: PeerUpNotificationTlv, buffer: &[u8]) {
        tlv_table::put_entry(out, at, entry_of(tlv), buffer);
    }
}

// All but the ports, which always can be written, and the TLVs.
fn front_writable(local_addr: IpAddr, sent_open: View, received_open: View, buffer: &[u8]) -> bool
    ensures { result ≡ front_writable buffer.now local_addr sent_open received_open }
{
    address_writable(local_addr)
        && open_writable(sent_open, buffer)
        && open_writable(received_open, buffer)
}

fn address_writable(address: IpAddr) -> bool
    ensures { result ≡ address_writable address }
{
    addresses::shown_ip(address.afi, address.octets).equals(address)
}

// A view that lies outside shows nothing, so no length of its own.
#[tactic(auto, using(crate::proofs::Written::open_judged), unfolding(crate::specs::Write::open_writable))]
fn open_writable(view: View, buffer: &[u8]) -> bool
    ensures { result ≡ open_writable buffer.now view }
{
    view.is_inside(buffer.len())
        && wire::BGP_HEADER <= view.length
        && (u16::read_at(view.part(buffer), 16) as usize) == view.length
}

fn entry_of(tlv: PeerUpNotificationTlv) -> TlvEntry
    ensures { result ≡ entry_of tlv }
{
    TlvEntry {
        kind: tlv.kind,
        size: tlv.info_len,
        value: TlvValue::Part(tlv.info_value()),
    }
}

// In a writable record the octets that are skipped on reading are zero, so all sixteen are put as they are.
#[tactic(auto, using(crate::proofs::Written::put_ends))]
fn put_endpoints(out: &mut [u8], local_addr: IpAddr, local_port: u16, remote_port: u16)
    requires { 20 ≤ length out.old }
    ensures { out.new ≡ sets out.old 0 (endpoint_bytes local_addr local_port remote_port) }
{
    writing::put_bytes(out, 0, &local_addr.octets);
    local_port.put(out, 16);
    remote_port.put(out, 18);
}

#[tactic(auto, using(crate::proofs::Written::put_both))]
fn put_opens(out: &mut [u8], sent_open: View, received_open: View, buffer: &[u8])
    requires { 20 + length (open_bytes buffer.now sent_open received_open) ≤ length out.old }
    ensures { out.new ≡ sets out.old 20 (open_bytes buffer.now sent_open received_open) }
{
    let sent = sent_open.part(buffer);
    let received = received_open.part(buffer);
    writing::put_bytes(out, OPENS_AT, sent);
    writing::put_bytes(out, OPENS_AT + sent.len(), received);
}

// What a whole message is answered with: that it is read, or the refusal of the first of its parts that is refused.
#![tactic(auto)]

ghost use Rattle.std.specs.Prelude.{◌≡◌};
ghost use Rattle.message_answer.specs.Grammar.{OkExactly, GoodExactly};
ghost use Rattle.message_answer.specs.Answer.{number, body_answer, peer_answer, answer_of};

use common_header::BmpMsgType;
use per_peer_record::BmpPerPeerHeader;
use wire::Refusal;

// The bodies that stand behind a per-peer header.
#[derive(Clone, Copy)]
enum PeerBody {
    Monitoring,
    Statistics,
    Down,
    Up,
    Mirroring,
}

// Judges what follows the common header of a message of this type: it is read exactly where the message has a reading, else this is the
// refusal of the first part that is refused, whose place counts from that part's start.
pub fn answer_of(msg_type: BmpMsgType, rest: &[u8]) -> Result<(), Refusal>
    ensures value { result ≡ answer_of msg_type rest.now }
    ensures ok_exactly { OkExactly msg_type rest.now result }
    ensures good_exactly { GoodExactly msg_type rest.now (number result) }
{
    judge(msg_type, rest)
}

#[tactic(auto, unfolding(crate::specs::Answer::answer_of))]
fn judge(msg_type: BmpMsgType, rest: &[u8]) -> Result<(), Refusal>
    ensures { result ≡ answer_of msg_type rest.now }
{
    match msg_type {
        BmpMsgType::RouteMonitoring => judge_peer(PeerBody::Monitoring, rest)?,
        BmpMsgType::StatisticsReport => judge_peer(PeerBody::Statistics, rest)?,
        BmpMsgType::PeerDownNotification => judge_peer(PeerBody::Down, rest)?,
        BmpMsgType::PeerUpNotification => judge_peer(PeerBody::Up, rest)?,
        BmpMsgType::InitiationMessage => {
            initiation_message::parse_initiation_message(rest)?;
        }
        BmpMsgType::TerminationMessage => {
            termination_message::parse_termination_message(rest)?;
        }
        BmpMsgType::RouteMirroringMessage => judge_peer(PeerBody::Mirroring, rest)?,
    }
    Ok(())
}

fn judge_peer(body: PeerBody, rest: &[u8]) -> Result<(), Refusal>
    ensures { result ≡ peer_answer body rest.now }
{
    let answer = per_peer_header::parse_per_peer_header(rest)?;
    let stop = answer.stop;
    judge_body(body, answer.header, &rest[stop..])
}

#[tactic(auto, unfolding(crate::specs::Answer::body_answer))]
fn judge_body(body: PeerBody, header: BmpPerPeerHeader, s: &[u8]) -> Result<(), Refusal>
    ensures { result ≡ body_answer body header s.now }
{
    let peer_type = header.peer_type;
    match body {
        PeerBody::Monitoring => {
            route_monitoring::parse_route_monitoring(s, header.asn_length(), peer_type)?;
        }
        PeerBody::Statistics => {
            stats_report::parse_stats_report(s)?;
        }
        PeerBody::Down => {
            peer_down_notification::parse_peer_down_notification(s)?;
        }
        PeerBody::Up => {
            peer_up_notification::parse_peer_up_notification(s, header.afi(), peer_type)?;
        }
        PeerBody::Mirroring => {
            route_mirroring::parse_route_mirroring(s)?;
        }
    }
    Ok(())
}

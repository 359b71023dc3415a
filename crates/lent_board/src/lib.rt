// The board of `board`, lent and brought up to date in place.
//
// Each function is a method of the board under the name of its message: it writes one place and one peer, and copies no board.
#![tactic(auto)]

ghost use Rattle.board.specs.Board.{Upped, Downed, Reported, LookedUp};

use board::{Board, BoardRefusal};
use kept_report::KeptReport;
use peer_down_notification::PeerDownNotification;
use peer_key::PeerKey;
use peer_up_notification::PeerUpNotification;
use per_peer_record::BmpPerPeerHeader;
use stats_report::StatsReport;

// A refusal leaves the board as it was.
pub fn peer_up(
    board: &mut Board,
    header: BmpPerPeerHeader,
    notification: PeerUpNotification,
) -> Result<(), BoardRefusal>
    ensures { Upped board.old header notification result board.new }
{
    board.enter(header, notification)
}

pub fn peer_down(
    board: &mut Board,
    header: BmpPerPeerHeader,
    notification: PeerDownNotification,
) -> Result<(), BoardRefusal>
    ensures { Downed board.old header notification result board.new }
{
    board.remove(header, notification)
}

pub fn peer_report(
    board: &mut Board,
    header: BmpPerPeerHeader,
    report: StatsReport,
) -> Result<(), BoardRefusal>
    ensures { Reported board.old header report result board.new }
{
    board.keep(header, report)
}

// What is known of the peer with the key, or that there is none.
pub fn look_up(board: &Board, key: PeerKey) -> Result<Option<KeptReport>, BoardRefusal>
    ensures { LookedUp board.now key result }
{
    board.find(key)
}

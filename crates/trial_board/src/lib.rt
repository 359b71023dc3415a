// The functions of `lent_board`, each lent a board that stands in a local: whoever calls them hands over a board by value, and gets it back.
#![tactic(auto)]

ghost use Rattle.board.specs.Board.{Upped, Downed, Reported, LookedUp};

use board::{Board, BoardRefusal};
use kept_report::KeptReport;
use peer_down_notification::PeerDownNotification;
use peer_key::PeerKey;
use peer_up_notification::PeerUpNotification;
use per_peer_record::BmpPerPeerHeader;
use stats_report::StatsReport;

pub fn lend_up(
    mut board: Board,
    header: BmpPerPeerHeader,
    notification: PeerUpNotification,
) -> (Result<(), BoardRefusal>, Board)
    ensures { Upped board header notification result.0 result.1 }
{
    let answer = lent_board::peer_up(&mut board, header, notification);
    (answer, board)
}

pub fn lend_down(
    mut board: Board,
    header: BmpPerPeerHeader,
    notification: PeerDownNotification,
) -> (Result<(), BoardRefusal>, Board)
    ensures { Downed board header notification result.0 result.1 }
{
    let answer = lent_board::peer_down(&mut board, header, notification);
    (answer, board)
}

pub fn lend_report(
    mut board: Board,
    header: BmpPerPeerHeader,
    report: StatsReport,
) -> (Result<(), BoardRefusal>, Board)
    ensures { Reported board header report result.0 result.1 }
{
    let answer = lent_board::peer_report(&mut board, header, report);
    (answer, board)
}

pub fn lend_look(board: Board, key: PeerKey) -> Result<Option<KeptReport>, BoardRefusal>
    ensures { LookedUp board key result }
{
    lent_board::look_up(&board, key)
}

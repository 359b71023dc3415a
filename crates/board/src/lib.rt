// A board of up to 64 peers, each under its whole key with its last report, by value.
//
// The methods bring a board up to date in place, for `lent_board`; the functions take a board by value and hand it back.
#![tactic(auto)]

ghost use Rattle.std.specs.Prelude.{◌≡◌, ◌<◌, IfSome};
ghost use Rattle.board.specs.Board.{peer_places, empty_board, place_at, find_key, find_free, place_for, answered, after, number_of, Upped, Downed, Reported, LookedUp};

use kept_report::KeptReport;
use peer_down_notification::PeerDownNotification;
use peer_key::PeerKey;
use peer_up_notification::PeerUpNotification;
use per_peer_record::BmpPerPeerHeader;
use stats_report::StatsReport;

// How many peers a board has places for.
pub const PEER_PLACES: usize = 64;

// Which peer uses each place, and at the same index what is known of that peer: its last report, where it has reported. At a place that
// no peer uses nothing is known either, on a board that began empty. The keys are a table of their own, since every call searches them.
#[derive(Clone, Copy)]
pub struct Board {
    pub places: [Option<PeerKey>; PEER_PLACES],
    pub peers: [Option<KeptReport>; PEER_PLACES],
}

// Why a call is refused: its report counts more than a table holds, there is no free place, or no such peer.
#[derive(Clone, Copy, PartialEq, Eq, Debug)]
pub enum BoardRefusal {
    BadField,
    BoardFull,
    NoPeer,
}

impl BoardRefusal {
    // The number that a refusal has among those of the readers.
    pub fn number(self) -> u8
        ensures { result ≡ number_of self }
    {
        match self {
            BoardRefusal::BadField => wire::BAD_FIELD,
            BoardRefusal::BoardFull => wire::BOARD_FULL,
            BoardRefusal::NoPeer => wire::NO_PEER,
        }
    }
}

// A board with no peer on it.
pub fn empty() -> Board
    ensures { result ≡ empty_board }
{
    Board {
        places: [None; PEER_PLACES],
        peers: [None; PEER_PLACES],
    }
}

impl Board {
    // A peer comes up: it is entered, at the lowest free place, or replaced where it stands, with no report. Here as in every call a
    // refusal leaves the board as it was.
    pub fn enter(
        &mut self,
        header: BmpPerPeerHeader,
        notification: PeerUpNotification,
    ) -> Result<(), BoardRefusal>
        ensures { Upped self.old header notification result self.new }
    {
        let key = peer_key::key_of(header);
        let at = place_for(&self.places, key).ok_or(BoardRefusal::BoardFull)?;
        self.places[at] = Some(key);
        self.peers[at] = None;
        Ok(())
    }

    // A peer goes down: it is removed, and nothing of it stays.
    pub fn remove(
        &mut self,
        header: BmpPerPeerHeader,
        notification: PeerDownNotification,
    ) -> Result<(), BoardRefusal>
        ensures { Downed self.old header notification result self.new }
    {
        let freed = find_key(&self.places, peer_key::key_of(header)).ok_or(BoardRefusal::NoPeer)?;
        self.places[freed] = None;
        self.peers[freed] = None;
        Ok(())
    }

    // A peer's report is its last one from now on. One that counts more than its table holds is refused before its peer is looked for.
    #[tactic(auto, unfolding(crate::specs::Board::report_of))]
    pub fn keep(
        &mut self,
        header: BmpPerPeerHeader,
        counters: StatsReport,
    ) -> Result<(), BoardRefusal>
        ensures { Reported self.old header counters result self.new }
    {
        if stats_report::COUNTER_PLACES < counters.count {
            return Err(BoardRefusal::BadField);
        }
        let at = find_key(&self.places, peer_key::key_of(header)).ok_or(BoardRefusal::NoPeer)?;
        self.peers[at] = Some(kept_report::keep(counters));
        Ok(())
    }

    // What is known of the peer with the key: its last report, or that there is none yet.
    pub fn find(&self, key: PeerKey) -> Result<Option<KeptReport>, BoardRefusal>
        ensures { LookedUp self.now key result }
    {
        let at = find_key(&self.places, key).ok_or(BoardRefusal::NoPeer)?;
        Ok(self.peers[at])
    }
}

// A peer comes up. Here as in every call a refusal hands no board back, and the caller's own is as it was.
pub fn up(
    mut board: Board,
    header: BmpPerPeerHeader,
    notification: PeerUpNotification,
) -> Result<Board, BoardRefusal>
    ensures { Upped board header notification (answered result) (after board result) }
{
    board.enter(header, notification)?;
    Ok(board)
}

// A peer goes down.
pub fn down(
    mut board: Board,
    header: BmpPerPeerHeader,
    notification: PeerDownNotification,
) -> Result<Board, BoardRefusal>
    ensures { Downed board header notification (answered result) (after board result) }
{
    board.remove(header, notification)?;
    Ok(board)
}

// A peer reports.
pub fn report(
    mut board: Board,
    header: BmpPerPeerHeader,
    counters: StatsReport,
) -> Result<Board, BoardRefusal>
    ensures { Reported board header counters (answered result) (after board result) }
{
    board.keep(header, counters)?;
    Ok(board)
}

// What is known of the peer with the key.
pub fn look(board: Board, key: PeerKey) -> Result<Option<KeptReport>, BoardRefusal>
    ensures { LookedUp board key result }
{
    board.find(key)
}

// Where a key stands that comes up: where it stood, or else at the lowest free place.
fn place_for(places: &[Option<PeerKey>; PEER_PLACES], key: PeerKey) -> Option<usize>
    ensures value { result ≡ place_at (place_for places.now key) }
    ensures bound { IfSome result (λ at. at < peer_places) }
{
    find_key(places, key).or_else(|| find_free(places))
}

// The first place that the key uses.
fn find_key(places: &[Option<PeerKey>; PEER_PLACES], key: PeerKey) -> Option<usize>
    ensures value { result ≡ place_at (find_key places.now key) }
    ensures bound { IfSome result (λ at. at < peer_places) }
{
    places
        .iter()
        .position(|place| matches!(place, Some(own) if own.equals(key)))
}

// The lowest free place.
fn find_free(places: &[Option<PeerKey>; PEER_PLACES]) -> Option<usize>
    ensures value { result ≡ place_at (find_free places.now) }
    ensures bound { IfSome result (λ at. at < peer_places) }
{
    places.iter().position(|place| place.is_none())
}

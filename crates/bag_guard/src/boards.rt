// Boards: the one that a peer finds, items of one that are not posted, and the one that an entry names.
ghost use Rattle.std.specs.Prelude.{◌≡◌, not, ◌^◌, ◌<◌, ◌≤◌};
ghost use Rattle.rules.specs.Bag.{is_full, period_of, board_of, board_named};
ghost use Rattle.state.specs.Contents.{Canon, bag_on};
ghost use Rattle.view.specs.View.{board_on, unposted_on, quorum_of, entry_on, backers_on};
ghost use Rattle.view.specs.Ready.{Ready};

use crate::entry::{board_named, board_of_entry, is_full, period_of};
use crate::signers::few_backers;
use bag::entry_at;
use header::Head;
use sets::database::board_of;
use sets::whole::posted;

// Peer j's board of period p.
pub fn board_by(s: &[u8], h: Head, j: u8, p: u8) -> u64
    requires { Ready h s.now }
    ensures { result ≡ board_on h s.now j p }
{
    board_of(s, h, j, p)
}

// An item of the board is not posted.
pub fn unposted(s: &[u8], h: Head, board: u64) -> bool
    requires { Canon s.now × (h.items ≤ 64) × (board < 2 ^ h.items) }
    ensures { result ≡ unposted_on h s.now board }
{
    let all = posted(s);
    board | all != all
}

// The bag has fewer than t backings of the period and the board of entry e.
pub fn few_backers_of(s: &[u8], h: Head, e: u8) -> bool
    requires { Ready h s.now }
    ensures { result ≡ not (quorum_of h (backers_on s.now (period_of (entry_on s.now e))
        (board_of (entry_on s.now e)))) }
{
    let x = entry_at(s, e as usize);
    few_backers(s, h, period_of(x), board_of_entry(x))
}

// There is no room for the board that entry e names.
pub fn no_room_for_board(s: &[u8], e: u8) -> bool
    requires { Canon s.now }
    ensures { result ≡ is_full (board_named (bag_on s.now) e) (bag_on s.now) }
{
    is_full(s, board_named(s, e))
}

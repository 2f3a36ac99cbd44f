// The board of a period: the first of the period in the bag.
ghost use Rattle.std.specs.Prelude.{◌≡◌};
ghost use Rattle.state.specs.Contents.{Canon};
ghost use Rattle.printing.specs.Board.{boards_on, published_in, published};

use bag::{bag_len, entry_at};
use rules::Entry;

// What an entry gives the period: the items of a board of it, as a set.
#[tactic(auto, unfolding(crate::specs::Board::published_in))]
fn published_in(x: Entry, p: u8) -> Option<u64>
    ensures { result ≡ published_in x p }
{
    match x {
        Entry::Board(q, items) => (q == p).then_some(items),
        _ => None,
    }
}

// What period p has: the items of the first board of it in the bag, as a set.
pub fn board_of(s: &[u8], p: u8) -> Option<u64>
    requires { Canon s.now }
    ensures { result ≡ published (boards_on s.now) p }
{
    for e in 0..bag_len(s) {
        if let Some(items) = published_in(entry_at(s, e), p) {
            return Some(items);
        }
    }
    None
}

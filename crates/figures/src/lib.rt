// The totals: the items posted, the receipts, and the items of all boards, each counted from what a state holds.
// No counter is kept anywhere. It uses sets and bag to read, and view for what the bytes say.
#![tactic(auto)]

ghost use Rattle.std.specs.Prelude.{◌≡◌, ◌≤◌};
ghost use Rattle.base.specs.Bits.{bit, pack};
ghost use Rattle.base.specs.Sums.{how_many};
ghost use Rattle.state.specs.Contents.{Canon};
ghost use Rattle.view.specs.View.{state_on};
ghost use Rattle.figures.specs.Totals.{receipt_count, items_on, outside_of, totals_in};
ghost use Rattle.figures.specs.Entries.{published_by};

use bag::{bag_len, entry_at};
use header::Head;
use rules::Entry;
use sets::whole::{posted, receipted_in};

// The figures of document 02's P1: items posted, receipts, and items summed over all boards.
#[derive(Clone, Copy)]
pub struct Totals {
    pub posts: u32,
    pub receipts: u32,
    pub items: u32,
}

// Of a set of items, those below m.
fn below(set: u64, m: u8) -> u64
    requires { m ≤ 64 }
    ensures { result ≡ pack m (bit set) }
{
    if m == 64 {
        return set;
    }
    set % (1 << m)
}

// How many items below m are in a set.
fn count_items(set: u64, m: u8) -> u32
    requires { m ≤ 64 }
    ensures { (result ≡ how_many m (bit set)) × (result ≤ 64) }
{
    below(set, m).count_ones()
}

// How many items are posted.
fn posts(s: &[u8], h: Head) -> u32
    requires { Canon s.now × (h.items ≤ 64) }
    ensures { result ≡ how_many h.items (outside_of (state_on s.now)).posts }
{
    count_items(posted(s), h.items)
}

// How many receipts there are, of all periods.
fn receipts(s: &[u8], h: Head) -> u32
    requires { Canon s.now × (h.items ≤ 64) }
    ensures { result ≡ receipt_count h.periods h.items (outside_of (state_on s.now)).receipts }
{
    let mut count: u32 = 0;
    for p in 0..h.periods {
        count += count_items(receipted_in(s, p), h.items);
    }
    count
}

// The items that an entry publishes, as a set: those of a board, and none of a hash or a backing.
#[tactic(auto, unfolding(crate::specs::Entries::published_by))]
fn published_by(x: Entry) -> u64
    ensures { result ≡ published_by x }
{
    match x {
        Entry::Board(_, board) => board,
        _ => 0,
    }
}

// How many items there are on all boards.
fn items(s: &[u8], h: Head) -> u32
    requires { Canon s.now × (h.items ≤ 64) }
    ensures { result ≡ items_on h.items (outside_of (state_on s.now)).boards }
{
    let mut count: u32 = 0;
    for e in 0..bag_len(s) {
        count += count_items(published_by(entry_at(s, e)), h.items);
    }
    count
}

// The totals of what is held outside.
pub fn count(s: &[u8], h: Head) -> Totals
    requires { Canon s.now × (h.items ≤ 64) }
    ensures { result ≡ totals_in h (outside_of (state_on s.now)) }
{
    Totals {
        posts: posts(s, h),
        receipts: receipts(s, h),
        items: items(s, h),
    }
}

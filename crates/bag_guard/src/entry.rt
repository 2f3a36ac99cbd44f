// Entries of the bag: 10, and the room for one more: 13.
ghost use Rattle.std.specs.Prelude.{◌≡◌, not};
ghost use Rattle.rules.specs.Bag.{is_hash, is_backing, is_full, period_of, board_of, board_named};
ghost use Rattle.rules.specs.Rules.{not_closed};
ghost use Rattle.state.specs.Contents.{Canon, current_on, bag_on};
ghost use Rattle.view.specs.View.{entry_on};

use bag::{bag_len, entry_at, is_in};
use rules::Entry;
use state::layout;
use state::numbers::current_of;

// Whether the entry is a hash.
fn is_hash(x: Entry) -> bool
    ensures { result ≡ is_hash x }
{
    matches!(x, Entry::Hash(..))
}

// Whether the entry is a backing.
fn is_backing(x: Entry) -> bool
    ensures { result ≡ is_backing x }
{
    matches!(x, Entry::Backing(..))
}

// The period that an entry names.
pub fn period_of(x: Entry) -> u8
    ensures { result ≡ period_of x }
{
    match x {
        Entry::Hash(_, p, _) | Entry::Backing(_, p, _) | Entry::Board(p, _) => p,
    }
}

// The board that an entry names.
pub fn board_of_entry(x: Entry) -> u64
    ensures { result ≡ board_of x }
{
    match x {
        Entry::Hash(_, _, b) | Entry::Backing(_, _, b) | Entry::Board(_, b) => b,
    }
}

// The board that entry e names.
pub fn board_named(s: &[u8], e: u8) -> Entry
    requires { Canon s.now }
    ensures { result ≡ board_named (bag_on s.now) e }
{
    let x = entry_at(s, e as usize);
    Entry::Board(period_of(x), board_of_entry(x))
}

// Entry e is absent, or no hash.
pub fn not_hash(s: &[u8], e: u8) -> bool
    requires { Canon s.now }
    ensures { result ≡ not (is_hash (entry_on s.now e)) }
{
    !is_hash(entry_at(s, e as usize))
}

// Entry e is absent, or no backing.
pub fn not_backing(s: &[u8], e: u8) -> bool
    requires { Canon s.now }
    ensures { result ≡ not (is_backing (entry_on s.now e)) }
{
    !is_backing(entry_at(s, e as usize))
}

// Peer j has not closed the period of entry e.
pub fn entry_not_closed(s: &[u8], j: u8, e: u8) -> bool
    requires { Canon s.now }
    ensures { result ≡ not_closed (current_on s.now j) (period_of (entry_on s.now e)) }
{
    current_of(s, j) <= period_of(entry_at(s, e as usize))
}

// The entry is new, and there is no room for it. Nothing is looked for while there is room.
pub fn is_full(s: &[u8], x: Entry) -> bool
    requires { Canon s.now }
    ensures { result ≡ is_full x (bag_on s.now) }
{
    layout::ENTRIES <= bag_len(s) && !is_in(s, x)
}

// Row 14 of the bag: how many entries it has, each of them by itself, no two the same, and nothing after the last.
// It uses state's layout, bits to read, and marks to tell entries apart.
#![tactic(auto)]

ghost use Rattle.std.specs.Prelude.{◌≡◌, ◌<◌, ◌≤◌, length};
ghost use Rattle.base.specs.Below.{every};
ghost use Rattle.state.specs.Layout.{items, entries, size};
ghost use Rattle.state.specs.Contents.{count};
ghost use Rattle.bag_valid.specs.BagOk.{entry_at_ok, bag_ok};
ghost use Rattle.bag_valid.specs.Numbers.{signer_ok, four_ok};

use crate::distinct::all_new;
use header::Head;
use state::layout::{
    BACKING, BAG, BOARD, BOARD_IN, COUNT, ENTRIES, ENTRY_SIZE, HASH, ITEM_BYTES, PERIOD_IN,
    SIGNER_IN, SIZE,
};

pub mod distinct;

// Whether the kind is one, and the signer one that the kind may have.
#[tactic(auto, unfolding(crate::specs::Numbers::signer_ok))]
fn signer_ok(n: u8, kind: u8, signer: u8) -> bool
    ensures { result ≡ signer_ok n kind signer }
{
    match kind {
        BOARD => signer == 0,
        HASH | BACKING => (1..=n).contains(&signer),
        _ => false,
    }
}

// Whether the four numbers are those of an entry of the table.
#[tactic(auto, unfolding(crate::specs::Numbers::four_ok))]
fn four_ok(h: Head, kind: u8, signer: u8, period: u8, board: u64) -> bool
    requires { h.items ≤ items }
    ensures { result ≡ four_ok h kind signer period board }
{
    signer_ok(h.n, kind, signer) && period < h.periods && bits::is_below(board, h.items)
}

// Whether entry e is of the table, and its bytes are those of the entry that they say.
fn entry_at_ok(s: &[u8], h: Head, e: usize) -> bool
    requires { (length s.now ≡ size) × ((e < entries) × (h.items ≤ items)) }
    ensures { result ≡ entry_at_ok h s.now e }
{
    let o = BAG + ENTRY_SIZE * e;
    four_ok(
        h,
        s[o],
        s[o + SIGNER_IN],
        s[o + PERIOD_IN],
        bits::load(s, o + BOARD_IN, ITEM_BYTES),
    )
}

// Whether each of the first n entries is of the table.
fn entries_ok(s: &[u8], h: Head, n: usize) -> bool
    requires { (length s.now ≡ size) × ((n ≤ entries) × (h.items ≤ items)) }
    ensures { result ≡ every n (entry_at_ok h s.now) }
{
    (0..n).all(|e| entry_at_ok(s, h, e))
}

// How many entries the bag has.
pub fn count_of(s: &[u8]) -> usize
    requires { length s.now ≡ size }
    ensures { result ≡ count s.now }
{
    bits::word(s, COUNT) as usize
}

// Whether the bag has at most 256 entries, each of the table, no two the same, and only 0 after the last.
pub fn bag_ok(s: &[u8], h: Head) -> bool
    requires { (length s.now ≡ size) × (h.items ≤ items) }
    ensures { result ≡ bag_ok h s.now }
{
    let n = count_of(s);
    if n > ENTRIES {
        return false;
    }
    if !entries_ok(s, h, n) {
        return false;
    }
    if !all_new(s, n) {
        return false;
    }
    let end = BAG + ENTRY_SIZE * n;
    bits::all_zero(s, end, SIZE - end)
}

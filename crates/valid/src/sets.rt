// The sets that a state holds: each has only what is of the table.
ghost use Rattle.std.specs.Prelude.{◌≡◌, ◌≤◌, length};
ghost use Rattle.state.specs.Layout.{entries, size};
ghost use Rattle.state.specs.Contents.{count};
ghost use Rattle.valid.specs.StateOk.{facts_ok};
ghost use Rattle.valid.specs.Regions.{item_sets_ok, peer_sets_ok, heard_ok};

use crate::hashes::hashes;
use crate::mask::of_rows;
use crate::rows::{each_row, each_table, only};
use header::Head;
use state::layout::{
    DATABASE, HEARD, HELD, ITEM_BYTES, PEER_BYTES, PEERS, PERIODS, POSTED, RECEIPTED, SHARED,
    SIGNED,
};

// Posted items, receipts, and the items that each peer holds.
fn item_sets_ok(s: &[u8], h: Head) -> bool
    requires { length s.now ≡ size }
    ensures { result ≡ item_sets_ok h s.now }
{
    let items = of_rows::<8>(1, ITEM_BYTES, h.items); // of the table
    if !only(s, POSTED, &items) {
        return false;
    }
    let cells = of_rows::<64>(h.periods, ITEM_BYTES, h.items); // of the table, by period
    if !only(s, RECEIPTED, &cells) {
        return false;
    }
    each_row(s, HELD, PEERS, h.n as usize, &cells)
}

// Signatures and receipt shares outside, and each peer's database.
fn peer_sets_ok(s: &[u8], h: Head) -> bool
    requires { length s.now ≡ size }
    ensures { result ≡ peer_sets_ok h s.now }
{
    let seats = of_rows::<128>(h.items, PEER_BYTES, h.n); // the peers of the table, by item
    if !each_row(s, SIGNED, PERIODS, h.periods as usize, &seats) {
        return false;
    }
    if !each_row(s, SHARED, PERIODS, h.periods as usize, &seats) {
        return false;
    }
    each_table(s, DATABASE, h.n as usize, h.periods as usize, &seats)
}

// The entries that each peer heard are hashes, of the n that the bag has.
fn heard_ok(s: &[u8], h: Head, n: usize) -> bool
    requires { (length s.now ≡ size) × ((n ≡ count s.now) × (n ≤ entries)) }
    ensures { result ≡ heard_ok h s.now }
{
    let heard = hashes(s, n);
    each_row(s, HEARD, PEERS, h.n as usize, &heard)
}

// Every fact that is there is of the table.
#[tactic(auto, using(crate::proofs::Regions::facts_by_region))]
pub(crate) fn facts_ok(s: &[u8], h: Head, n: usize) -> bool
    requires { (length s.now ≡ size) × ((n ≡ count s.now) × (n ≤ entries)) }
    ensures { result ≡ facts_ok h s.now }
{
    item_sets_ok(s, h) && peer_sets_ok(s, h) && heard_ok(s, h, n)
}

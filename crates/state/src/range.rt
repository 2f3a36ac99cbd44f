// Whether the layout has room for a peer, for a period and an item, for a fact.
ghost use Rattle.std.specs.Prelude.{◌≡◌, ◌&&◌, ltb};
ghost use Rattle.state.specs.Layout.{items, entries};
ghost use Rattle.state.specs.Facts.{is_peer, is_cell, is_row, is_spot, in_range};

use crate::{Fact, layout};

// Whether k is one of the peers for which there is room.
pub(crate) fn is_peer(k: u8) -> bool
    ensures { result ≡ is_peer k }
{
    1 <= k && k as usize <= layout::PEERS
}

// Whether there is room for the item.
pub(crate) fn is_item(i: u8) -> bool
    ensures { result ≡ ltb i items }
{
    (i as usize) < layout::ITEMS
}

// Whether there is room for the period and the item.
pub fn is_cell(p: u8, i: u8) -> bool
    ensures { result ≡ is_cell p i }
{
    (p as usize) < layout::PERIODS && is_item(i)
}

// Whether there is room for the peer and the period.
pub fn is_row(j: u8, p: u8) -> bool
    ensures { result ≡ is_row j p }
{
    is_peer(j) && (p as usize) < layout::PERIODS
}

// Whether there is room for the peer, the period and the item.
pub fn is_spot(k: u8, p: u8, i: u8) -> bool
    ensures { result ≡ is_spot k p i }
{
    is_peer(k) && is_cell(p, i)
}

// Whether there is room for the two peers, the period and the item.
fn is_known(j: u8, p: u8, i: u8, k: u8) -> bool
    ensures { result ≡ (is_peer j && is_spot k p i) }
{
    is_peer(j) && is_spot(k, p, i)
}

// Whether there is room for the peer and the entry.
pub(crate) fn is_heard(j: u8, e: u8) -> bool
    ensures { result ≡ (is_peer j && ltb e entries) }
{
    is_peer(j) && (e as usize) < layout::ENTRIES
}

// Whether there is room for the fact.
pub(crate) fn in_range(f: Fact) -> bool
    ensures { result ≡ in_range f }
{
    match f {
        Fact::Posted(i) => is_item(i),
        Fact::Signed(k, p, i) => is_spot(k, p, i),
        Fact::Shared(k, p, i) => is_spot(k, p, i),
        Fact::Receipted(p, i) => is_cell(p, i),
        Fact::Held(j, p, i) => is_spot(j, p, i),
        Fact::Known(j, p, i, k) => is_known(j, p, i, k),
        Fact::Heard(j, e) => is_heard(j, e),
    }
}

// Sets read and added to whole. Names for which there is no room have none.
ghost use Rattle.std.specs.Prelude.{◌≡◌};
ghost use Rattle.state.specs.Facts.{Spot};
ghost use Rattle.state.specs.Contents.{contents, Canon, Holds, adding};
ghost use Rattle.state.specs.Sets.{signers_of, sharers_of, held_of, posted_of, on_item, known_to};
ghost use Rattle.sets.specs.Receipts.{receipted_of};

use header::{Sharers, Signers};
use state::layout;
use state::place::{cell_of, row_of, spot_of};
use state::range::{is_cell, is_row, is_spot};

// The signers that peer j's database has on item i in period p.
pub fn signers_of(s: &[u8], j: u8, p: u8, i: u8) -> Signers
    requires { Canon s.now }
    ensures { result ≡ signers_of (contents s.now) j p i }
{
    if is_spot(j, p, i) {
        return Signers(bits::word(s, layout::DATABASE + layout::PEER_BYTES * spot_of(j, p, i)));
    }
    Signers(0)
}

// The peers whose receipt shares on item i in period p are outside.
pub fn sharers_of(s: &[u8], p: u8, i: u8) -> Sharers
    requires { Canon s.now }
    ensures { result ≡ sharers_of (contents s.now) p i }
{
    if is_cell(p, i) {
        return Sharers(bits::word(s, layout::SHARED + layout::PEER_BYTES * cell_of(p, i)));
    }
    Sharers(0)
}

// The items that peer j holds in period p.
pub fn held_in(s: &[u8], j: u8, p: u8) -> u64
    requires { Canon s.now }
    ensures { result ≡ held_of (contents s.now) j p }
{
    if is_row(j, p) {
        return bits::load(
            s,
            layout::HELD + layout::ITEM_BYTES * row_of(j, p),
            layout::ITEM_BYTES,
        );
    }
    0
}

// The posted items.
pub fn posted(s: &[u8]) -> u64
    requires { Canon s.now }
    ensures { result ≡ posted_of (contents s.now) }
{
    bits::load(s, layout::POSTED, layout::ITEM_BYTES)
}

// The items for which there is a receipt of period p.
pub fn receipted_in(s: &[u8], p: u8) -> u64
    requires { Canon s.now }
    ensures { result ≡ receipted_of (contents s.now) p }
{
    let i = p as usize;
    if i < layout::PERIODS {
        return bits::load(
            s,
            layout::RECEIPTED + layout::ITEM_BYTES * i,
            layout::ITEM_BYTES,
        );
    }
    0
}

// Adds a set of signers on item i to peer j's database of period p.
pub fn add_signers(s: &mut [u8], j: u8, p: u8, i: u8, set: Signers)
    requires { Canon s.old × Spot j p i }
    ensures { Holds s.new (adding (known_to j p (on_item i set.0)) (contents s.old)) }
{
    bits::join(
        s,
        layout::DATABASE + layout::PEER_BYTES * spot_of(j, p, i),
        set.0,
    );
}

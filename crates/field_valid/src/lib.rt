// Row 14: whether a lent buffer is a state of the field peer. It need not be one that messages lead to.
// It uses field_state's layout, bits to read, and marks to tell hashes apart, by bag_valid's numbers.
#![tactic(auto)]

ghost use Rattle.std.specs.Prelude.{◌≡◌, ◌+◌, ◌*◌, ◌^◌, ◌<◌, ◌≤◌, ltb, length};
ghost use Rattle.base.specs.Below.{every};
ghost use Rattle.state.specs.Layout.{periods, entries};
ghost use Rattle.view.specs.Ready.{Room};
ghost use Rattle.field_state.specs.Layout.{size};
ghost use Rattle.field_valid.specs.SignerSets.{signers_ok};
ghost use Rattle.field_valid.specs.BoxOk.{row_width, cell_ok, spots_in, numbers_ok, hash_ok, hashes_ok, box_ok};

use crate::distinct::all_new;
use field_state::layout;
use header::Head;
use state::layout::{ENTRIES, ITEM_BYTES, PEER_BYTES};

mod distinct; // no two heard hashes are the same

const ROW_BYTES: usize = 128; // of the sets of signers of one period

// How many bits a set of items of period p may have.
#[tactic(auto, unfolding(crate::specs::BoxOk::row_width))]
fn row_width(h: Head, p: u8) -> u8
    ensures { result ≡ row_width h p }
{
    if p < h.periods { h.items } else { 0 }
}

// The set of items of period p has items of the table only.
#[tactic(auto, unfolding(crate::specs::BoxOk::cell_ok))]
fn cell_ok(s: &[u8], h: Head, o: usize, p: u8) -> bool
    requires { Room h × ((length s.now ≡ size) × ((o ≤ 64) × (p < periods))) }
    ensures { result ≡ cell_ok h s.now o p }
{
    let v = bits::load(s, o + ITEM_BYTES * p as usize, ITEM_BYTES);
    bits::is_below(v, row_width(h, p))
}

// So has the set of each period.
fn cells_ok(s: &[u8], h: Head, o: usize) -> bool
    requires { Room h × ((length s.now ≡ size) × (o ≤ 64)) }
    ensures { result ≡ every periods (cell_ok h s.now o) }
{
    (0..8u8).all(|p| cell_ok(s, h, o, p))
}

// Whether a set of signers has only the first n peers.
fn is_narrow(v: u16, n: u8) -> bool
    requires { n ≤ 64 }
    ensures { result ≡ ltb v (2 ^ n) }
{
    bits::is_below(v as u64, n)
}

// Of the sets of signers from byte o on, those on items of the table have peers of the table only.
// The loop gathers and asks at its end, so that it takes many sets at a time.
fn signers_ok(s: &[u8], h: Head, o: usize) -> bool
    requires { Room h × ((length s.now ≡ size) × (o ≤ 1024)) }
    ensures { result ≡ every h.items (signers_ok h.n s.now o) }
{
    let mut sum: u16 = 0;
    for x in 0..h.items as usize {
        sum = sum | bits::word(s, o + PEER_BYTES * x);
    }
    is_narrow(sum, h.n)
}

// The set of each item of period p has peers of the table only. Behind the table's items all bytes are 0.
fn spots_in(s: &[u8], h: Head, p: u8) -> bool
    requires { Room h × ((length s.now ≡ size) × (p < h.periods)) }
    ensures { result ≡ spots_in h s.now p }
{
    let o = layout::KNOWN + ROW_BYTES * p as usize;
    let used = PEER_BYTES * h.items as usize;
    if !bits::all_zero(s, o + used, ROW_BYTES - used) {
        return false;
    }
    signers_ok(s, h, o)
}

// So have the sets of each of the table's periods.
fn each_spots(s: &[u8], h: Head) -> bool
    requires { Room h × (length s.now ≡ size) }
    ensures { result ≡ every h.periods (spots_in h s.now) }
{
    (0..h.periods).all(|p| spots_in(s, h, p))
}

// So have the sets of each period. Behind the table's periods all bytes are 0.
fn spots_ok(s: &[u8], h: Head) -> bool
    requires { Room h × (length s.now ≡ size) }
    ensures { result ≡ every periods (spots_in h s.now) }
{
    let end = layout::KNOWN + ROW_BYTES * h.periods as usize;
    if !bits::all_zero(s, end, layout::CURRENT - end) {
        return false;
    }
    each_spots(s, h)
}

// The counters and the flag are in range.
#[tactic(auto, unfolding(crate::specs::BoxOk::numbers_ok))]
fn numbers_ok(s: &[u8], h: Head) -> bool
    requires { length s.now ≡ size }
    ensures { result ≡ numbers_ok h s.now }
{
    s[layout::CURRENT] <= h.periods
        && s[layout::TO_BACK] <= s[layout::CURRENT]
        && s[layout::DOWN] <= 1
}

// Heard hash e is of the table.
#[tactic(auto, unfolding(crate::specs::BoxOk::hash_ok))]
fn hash_ok(s: &[u8], h: Head, e: usize) -> bool
    requires { Room h × ((length s.now ≡ size) × (e < entries)) }
    ensures { result ≡ hash_ok h s.now e }
{
    let o = layout::HEARD + layout::HASH_SIZE * e;
    (1..=h.n).contains(&s[o])
        && s[o + 1] < h.periods
        && bits::is_below(bits::load(s, o + 2, ITEM_BYTES), h.items)
}

// So is each of the first n.
fn all_ok(s: &[u8], h: Head, n: usize) -> bool
    requires { Room h × ((length s.now ≡ size) × (n ≤ entries)) }
    ensures { result ≡ every n (hash_ok h s.now) }
{
    (0..n).all(|e| hash_ok(s, h, e))
}

// At most 256 hashes are heard, each of the table, no two the same, and only 0 stands after the last.
fn hashes_ok(s: &[u8], h: Head) -> bool
    requires { Room h × (length s.now ≡ size) }
    ensures { result ≡ hashes_ok h s.now }
{
    let n = bits::word(s, layout::COUNT) as usize;
    if n > ENTRIES {
        return false;
    }
    if !all_ok(s, h, n) {
        return false;
    }
    if !all_new(s, n) {
        return false;
    }
    let end = layout::HEARD + layout::HASH_SIZE * n;
    bits::all_zero(s, end, layout::SIZE - end)
}

// Row 14: whether the bytes are a state of the field peer.
#[tactic(auto, unfolding(crate::specs::BoxOk::box_ok))]
pub fn box_ok(s: &[u8], h: Head) -> bool
    requires { Room h }
    ensures { result ≡ box_ok h s.now }
{
    s.len() == layout::SIZE
        && numbers_ok(s, h)
        && cells_ok(s, h, layout::HELD)
        && cells_ok(s, h, layout::GAVE)
        && spots_ok(s, h)
        && hashes_ok(s, h)
}

// The ballot table's header: its season, its fields, the weights of its peers, the struct of them that is read once,
// whether each is in range, and which sets of peers reach its threshold.
// It uses the crate base and no other.
#![tactic(auto)]

ghost use Rattle.std.specs.Prelude.{◌≡◌, ◌≤◌, true};
ghost use Rattle.header.specs.Header.{header_size, field_of, peers_of, threshold_of, honest_of, periods_of, items_of};
ghost use Rattle.header.specs.Header.{joined, head_of, is_honest, honest_count};
ghost use Rattle.header.specs.Header.{total_weight, weights_ok, least_threshold, none_above, threshold_ok, header_ok};
ghost use Rattle.base.specs.Bytes.{between};

use crate::season::{fields_at, season_of};
use crate::weights::{Feature, peers_with, weight_count};

pub mod quorum;
pub mod season; // the season of a table
pub mod weights; // the weights of its peers

// Peers by their signing keys, whose signatures are on an item or whose hashes have a board: bit k - 1 is peer k.
#[derive(Clone, Copy)]
pub struct Signers(pub u16);

// Peers by their share keys, whose receipt shares are on an item or whose backings have a board: bit k - 1 is peer k.
// A receipt share never counts as a signature, nor the reverse.
#[derive(Clone, Copy)]
pub struct Sharers(pub u16);

// What a step needs of a table: its header, read once.
#[derive(Clone, Copy)]
pub struct Head {
    pub n: u8,
    pub t: u8,
    // three sets of sixteen bits, bit k - 1 for peer k: the honest peers, those whose weight is even, and those whose
    // weight is above 2; in one word, since the struct is handed on by value
    pub sets: u64,
    pub periods: u8,
    pub items: u8,
}

// The header's length in bytes: six bytes of fields, after what its season puts before them, and the weights.
pub fn header_size(table: &[u8]) -> u8
    ensures { result ≡ header_size table.now }
{
    let season = season_of(table);
    fields_at(season) + 6 + weight_count(season, table)
}

// Byte i of the fields, behind which the weights stand: every one is read through it.
fn field(table: &[u8], i: u8) -> u8
    ensures { result ≡ field_of table.now i }
{
    let at = fields_at(season_of(table));
    base::byte_at(table, at as usize + i as usize)
}

// n, the number of peers.
pub fn peers(table: &[u8]) -> u8
    ensures { result ≡ peers_of table.now }
{
    field(table, 0)
}

// t, the threshold.
pub fn threshold(table: &[u8]) -> u8
    ensures { result ≡ threshold_of table.now }
{
    field(table, 1)
}

// The honest set: bit k - 1 is peer k.
pub fn honest(table: &[u8]) -> u16
    ensures { result ≡ honest_of table.now }
{
    let high = field(table, 2);
    let low = field(table, 3);
    (high as u16) * 256 + (low as u16)
}

// P, the number of periods.
pub fn periods(table: &[u8]) -> u8
    ensures { result ≡ periods_of table.now }
{
    field(table, 4)
}

// m, the number of items.
pub fn items(table: &[u8]) -> u8
    ensures { result ≡ items_of table.now }
{
    field(table, 5)
}

// Four sets in one word.
pub(crate) fn joined(a: u16, b: u16, c: u16, d: u16) -> u64
    ensures { result ≡ joined a b c d }
{
    let low = (a as u64) + 65536 * (b as u64);
    let high = (c as u64) + 65536 * (d as u64);
    low + 4294967296 * high
}

// The header of a table, read once.
pub fn head_of(table: &[u8]) -> Head
    ensures { result ≡ head_of table.now }
{
    Head {
        n: peers(table),
        t: threshold(table),
        sets: joined(
            honest(table),
            peers_with(Feature::Even, table),
            peers_with(Feature::Heavy, table),
            0,
        ),
        periods: periods(table),
        items: items(table),
    }
}

// Whether peer k is honest.
pub fn is_honest(h: Head, k: u8) -> bool
    ensures { result ≡ is_honest h k }
{
    base::is_member((h.sets % 65536) as u16, k)
}

// h, the number of honest peers.
pub fn honest_count(h: Head) -> u8
    ensures { result ≡ honest_count h }
{
    let mut count: u8 = 0;
    for k in 0..h.n {
        if is_honest(h, k + 1) {
            count += 1;
        }
    }
    count
}

// The least threshold for a weight: twice it divided by three, rounded down, plus one.
fn least(w: u8) -> u8
    ensures { result ≡ least_threshold w }
{
    (2 * (w as u16) / 3 + 1) as u8
}

// Whether no bit of the set stands above peer n.
fn none_above(n: u8, set: u16) -> bool
    requires { n ≤ 16 }
    ensures { result ≡ none_above n set }
{
    (set as u32) >> n == 0
}

// Whether x is low, high or a number between them.
fn is_between(low: u8, x: u8, high: u8) -> bool
    ensures { result ≡ between low x high }
{
    low <= x && x <= high
}

// Whether t runs from the least threshold for the weight of all peers to that weight.
fn threshold_ok(table: &[u8]) -> bool
    requires { (peers_of table.now ≤ 16) × (weights_ok table.now ≡ true) }
    ensures { result ≡ threshold_ok (total_weight table.now) (threshold_of table.now) }
{
    let w = weights::total(table);
    is_between(least(w), threshold(table), w)
}

#[tactic(auto, unfolding(crate::specs::Header::header_ok, crate::specs::Header::fields_ok))]
// Whether the header is whole, there are 1 to 16 peers, and all else is in range.
pub fn header_ok(table: &[u8]) -> bool
    ensures { result ≡ header_ok table.now }
{
    let n = peers(table);
    header_size(table) as usize <= table.len()
        && is_between(1, n, 16)
        && weights::weights_ok(table)
        && threshold_ok(table)
        && none_above(n, honest(table))
        && is_between(1, periods(table), 8)
        && items(table) <= 64
}

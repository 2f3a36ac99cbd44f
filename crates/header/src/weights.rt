// The weights of the peers, from 1 to 4: a table of the third season has a byte for each after the fields of its
// header. In older tables every peer weighs 1.
ghost use Rattle.std.specs.Prelude.{◌≡◌, true, ◌≤◌};
ghost use Rattle.header.specs.Season.{season_of};
ghost use Rattle.header.specs.Header.{peers_of, weight_count, weight_in, total_weight, has, peers_with, weights_ok};

use crate::quorum::with_peer;
use crate::season::{Season, has_weights, season_of};
use crate::{field, is_between, peers};

// What tells a weight: whether it is even, and whether it is heavy, that is above 2.
#[derive(Clone, Copy)]
pub enum Feature {
    Even,
    Heavy,
}

// How many weights a table of the season has: one for each peer, none in older tables; more than 16 peers are refused.
pub(crate) fn weight_count(season: Season, table: &[u8]) -> u8
    requires { season ≡ season_of table.now }
    ensures { (result ≡ weight_count table.now) × (result ≤ 16) }
{
    if has_weights(season) {
        peers(table).min(16)
    } else {
        0
    }
}

// The weight of peer k: its byte, and 1 where it has none.
fn weight_in(table: &[u8], k: u8) -> u8
    ensures { result ≡ weight_in table.now k }
{
    if !is_between(1, k, weight_count(season_of(table), table)) {
        return 1;
    }
    field(table, 5 + k)
}

// Whether every weight is 1 to 4.
pub(crate) fn weights_ok(table: &[u8]) -> bool
    ensures { result ≡ weights_ok table.now }
{
    let count = weight_count(season_of(table), table);
    (0..count).all(|i| is_between(1, weight_in(table, i + 1), 4))
}

// W, the weight of all peers.
pub(crate) fn total(table: &[u8]) -> u8
    requires { (peers_of table.now ≤ 16) × (weights_ok table.now ≡ true) }
    ensures { result ≡ total_weight table.now }
{
    let n = peers(table);
    if weight_count(season_of(table), table) == 0 {
        return n;
    }
    let mut total: u8 = 0;
    for k in 0..n {
        total += weight_in(table, k + 1);
    }
    total
}

// Whether a weight is even, or heavy.
fn has(feature: Feature, w: u8) -> bool
    ensures { result ≡ has feature w }
{
    match feature {
        Feature::Even => w % 2 == 0,
        Feature::Heavy => 2 < w,
    }
}

// The peers whose weight is even, or heavy; in older tables none.
pub(crate) fn peers_with(feature: Feature, table: &[u8]) -> u16
    ensures { result ≡ peers_with feature table.now }
{
    let count = weight_count(season_of(table), table);
    let mut set: u16 = 0;
    for k in 0..count {
        if has(feature, weight_in(table, k + 1)) {
            set = with_peer(set, k + 1);
        }
    }
    set
}

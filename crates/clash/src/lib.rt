// When two items clash: by their kinds, their texts and their numbers; and the rows of clashes, made once for a table.
// It uses ballot to read items, header for their number and where their pairs start, and base.
#![tactic(auto)]

ghost use Rattle.std.specs.Prelude.{◌≡◌};
ghost use Rattle.clash.specs.Clash.{is_vote, is_cancellation, places_differ, kinds_clash};
ghost use Rattle.clash.specs.Clash.{items_clash, readings_clash, clash, clash_in};

use ballot::item::{Audits, Item, Kind};

pub mod rows; // what clashes with each item

// Whether the kind is a vote.
fn is_vote(k: Kind) -> bool
    ensures { result ≡ is_vote k }
{
    matches!(k, Kind::Vote(_))
}

// Whether the kind is a cancellation.
fn is_cancellation(k: Kind) -> bool
    ensures { result ≡ is_cancellation k }
{
    matches!(k, Kind::Cancellation)
}

// Whether both are audits, from different places.
fn places_differ(a: Kind, b: Kind) -> bool
    ensures { result ≡ places_differ a b }
{
    match (a, b) {
        (Kind::PlacedAudit(place), Kind::PlacedAudit(other)) => place != other,
        _ => false,
    }
}

// Whether neither is a cancellation, and at least one is a vote or they are audits from different places.
fn kinds_clash(a: Kind, b: Kind) -> bool
    ensures { result ≡ kinds_clash a b }
{
    !is_cancellation(a) && !is_cancellation(b) && (is_vote(a) || is_vote(b) || places_differ(a, b))
}

// Whether they are of one ballot, with kinds that clash.
fn items_clash(a: Item, b: Item) -> bool
    ensures { result ≡ items_clash a b }
{
    a.ballot == b.ballot && kinds_clash(a.kind, b.kind)
}

// Whether both are items, and these clash.
fn readings_clash(x: Option<Item>, y: Option<Item>) -> bool
    ensures { result ≡ readings_clash x y }
{
    match (x, y) {
        (Some(a), Some(b)) => items_clash(a, b),
        _ => false,
    }
}

// Whether the items with these texts clash.
#[tactic(auto, using(base::proofs::Bytes::same_pointwise), unfolding(crate::specs::Clash::clash))]
pub fn clashes(audits: Audits, a: &[u8], b: &[u8]) -> bool
    ensures { result ≡ clash audits a.now b.now }
{
    a != b
        && readings_clash(
            ballot::item::read_item(audits, a),
            ballot::item::read_item(audits, b),
        )
}

// Whether items i and j of the table clash.
#[tactic(auto, unfolding(crate::specs::Clash::clash_in))]
pub fn clash_in(table: &[u8], i: u8, j: u8) -> bool
    ensures { result ≡ clash_in table.now i j }
{
    clashes(
        ballot::audits(table),
        ballot::reader::item_at(table, i),
        ballot::reader::item_at(table, j),
    )
}

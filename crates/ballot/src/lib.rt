// The ballot table: its header, pairs and items, read from lent bytes, and the first refusal of 1 to 4 that applies.
// An item's text is handed on as the part of the table that it is; nothing is copied, and no byte is changed.
// It uses header and pairs to read the table, twins to compare its items, and base.
#![tactic(auto)]

ghost use Rattle.std.specs.Prelude.{◌≡◌};
ghost use Rattle.base.specs.Refusals.{answer_of};
ghost use Rattle.ballot.specs.Table.{audits_in, audits_of, table_pairs_ok, items_ok, no_twins, refusal};
ghost use Rattle.ballot.specs.Reader.{pairs_over};

use crate::item::Audits;
use base::refusal::Refusal;
use header::season::Season;
use pairs::Pairs;

pub mod item; // an item, read from its text
pub mod reader; // a reader that stands over the table's bytes

// The table's own pairs.
pub fn pairs_of<'a>(table: &'a [u8]) -> Pairs<'a>
    ensures { result ≡ pairs_over table.entry }
{
    Pairs {
        bytes: table,
        at: header::header_size(table),
        count: header::items(table),
    }
}

// Whether the table's own pairs are right.
#[tactic(auto, unfolding(crate::specs::Table::table_pairs_ok))]
fn table_pairs_ok(table: &[u8]) -> bool
    ensures { result ≡ table_pairs_ok table.now }
{
    pairs_of(table).are_ok()
}

// The audits of a season's tables.
fn audits_in(season: Season) -> Audits
    ensures { result ≡ audits_in season }
{
    match season {
        Season::First => Audits::Bare,
        Season::Second => Audits::Placed,
        Season::Third => Audits::Placed,
    }
}

// The audits of a table.
pub fn audits(table: &[u8]) -> Audits
    ensures { result ≡ audits_of table.now }
{
    audits_in(header::season::season_of(table))
}

// Whether every item's text reads as an item of the table's season.
#[tactic(auto, unfolding(crate::specs::Table::items_ok))]
fn items_ok(table: &[u8]) -> bool
    ensures { result ≡ items_ok table.now }
{
    item::all_items(audits(table), pairs_of(table))
}

// Whether no two items are twins.
#[tactic(auto, unfolding(crate::specs::Table::no_twins))]
fn no_twins(table: &[u8]) -> bool
    ensures { result ≡ no_twins table.now }
{
    twins::no_twins(pairs_of(table))
}

// The first refusal that applies, if one does: the header's, the pairs', an item's or a twin's.
#[tactic(auto, unfolding(crate::specs::Table::refusal, base::specs::Refusals::first))]
pub fn check_table(table: &[u8]) -> Result<(), Refusal>
    ensures { answer_of result ≡ refusal table.now }
{
    if !header::header_ok(table) {
        return Err(Refusal::Header);
    }
    if !table_pairs_ok(table) {
        return Err(Refusal::Pairs);
    }
    if !items_ok(table) {
        return Err(Refusal::Item);
    }
    if !no_twins(table) {
        return Err(Refusal::Twin);
    }
    Ok(())
}

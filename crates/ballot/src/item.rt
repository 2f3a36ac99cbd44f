// Items: a ballot and a kind, read from an item's text; and whether each of several texts reads as one.
ghost use Rattle.std.specs.Prelude.{◌≡◌};
ghost use Rattle.ballot.specs.Item.{ballot_of, bare_audit, placed_audit, read_audit, read_kind, read_item};
ghost use Rattle.ballot.specs.Item.{ballot_in, item_at, all_items};

use pairs::Pairs;

// What an item is, beside its ballot.
#[derive(Clone, Copy)]
pub enum Kind {
    // The number of preferences, a byte each.
    Vote(usize),
    // Without a place, as in tables of the first season.
    Audit,
    // With the place that made it.
    PlacedAudit(u8),
    Cancellation,
}

// Which audits are items.
#[derive(Clone, Copy)]
pub enum Audits {
    // Those without a place: in tables of the first season.
    Bare,
    // Those with a place: in tables of the second.
    Placed,
    // Both: on a sheet, which has no season.
    Either,
}

#[derive(Clone, Copy)]
pub struct Item {
    pub ballot: u32,
    pub kind: Kind,
}

// The kind bytes.
const VOTE: u8 = 1;

const AUDIT: u8 = 2;

const CANCELLATION: u8 = 3;

// Where the kind byte stands, and where the preferences or the place start.
const KIND_AT: usize = 4;

const BODY_AT: usize = 5;

// The ballot number.
pub fn ballot(text: &[u8]) -> u32
    ensures { result ≡ ballot_of text.now }
{
    base::number_at(text, 0, 4) as u32
}

// Of the texts that pairs mark out: the ballot number of text k.
pub fn ballot_in(p: Pairs, k: u8) -> u32
    ensures { result ≡ ballot_in p.entry.bytes.now p.entry.at k }
{
    ballot(p.text(k))
}

// The audit of a ballot, without a place: no byte follows the kind byte.
fn bare_audit(ballot: u32, rest: usize) -> Option<Item>
    ensures { result ≡ bare_audit ballot rest }
{
    (rest == 0).then_some(Item {
        ballot,
        kind: Kind::Audit,
    })
}

// The audit of a ballot, with its place: one byte follows the kind byte.
fn placed_audit(ballot: u32, rest: usize, place: u8) -> Option<Item>
    ensures { result ≡ placed_audit ballot rest place }
{
    (rest == 1).then_some(Item {
        ballot,
        kind: Kind::PlacedAudit(place),
    })
}

// The audit of a ballot, of those that are items.
fn read_audit(audits: Audits, ballot: u32, rest: usize, place: u8) -> Option<Item>
    ensures { result ≡ read_audit audits ballot rest place }
{
    match audits {
        Audits::Bare => bare_audit(ballot, rest),
        Audits::Placed => placed_audit(ballot, rest, place),
        Audits::Either => {
            if rest == 0 {
                bare_audit(ballot, rest)
            } else {
                placed_audit(ballot, rest, place)
            }
        }
    }
}

// The item of a ballot, a kind byte, the number of bytes after it and the first of them.
#[tactic(auto, unfolding(crate::specs::Item::read_kind))]
fn read_kind(audits: Audits, ballot: u32, k: u8, rest: usize, place: u8) -> Option<Item>
    ensures { result ≡ read_kind audits ballot k rest place }
{
    match k {
        VOTE => (1 <= rest && rest <= 32).then_some(Item {
            ballot,
            kind: Kind::Vote(rest),
        }),
        AUDIT => read_audit(audits, ballot, rest, place),
        CANCELLATION => (rest == 0).then_some(Item {
            ballot,
            kind: Kind::Cancellation,
        }),
        _ => None,
    }
}

// What an item's text says; none where it has a length or a kind byte that no item has.
pub fn read_item(audits: Audits, text: &[u8]) -> Option<Item>
    ensures { result ≡ read_item audits text.now }
{
    if text.len() < BODY_AT {
        return None;
    }
    read_kind(
        audits,
        ballot(text),
        base::byte_at(text, KIND_AT),
        text.len() - BODY_AT,
        base::byte_at(text, BODY_AT),
    )
}

// Of the texts that pairs mark out: whether text k reads as an item.
#[tactic(auto, unfolding(crate::specs::Item::item_at, crate::specs::Item::is_item))]
fn is_item(audits: Audits, p: Pairs, k: u8) -> bool
    ensures { result ≡ item_at audits p.entry.bytes.now p.entry.at k }
{
    read_item(audits, p.text(k)).is_some()
}

// Whether each of them reads as an item.
pub fn all_items(audits: Audits, p: Pairs) -> bool
    ensures { result ≡ all_items audits p.entry.bytes.now p.entry.at p.entry.count }
{
    (0..p.count).all(|k| is_item(audits, p, k))
}

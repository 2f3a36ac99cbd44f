// The sheet of document 02's P2, judged and read without the table: its whole slice is judged first, and an item is
// handed out as the part of the sheet that it is. Nothing is copied, and no byte is changed.
// It uses pairs, twins and ballot's items as the ballot table does, with another place for the pairs and with audits of
// either length.
#![tactic(auto)]

ghost use Rattle.std.specs.Prelude.{◌≡◌};
ghost use Rattle.base.specs.Refusals.{answer_of};
ghost use Rattle.sheets.specs.Sheet.{count_on, pairs_over, sheet_ok};
ghost use Rattle.sheets.specs.Found.{sheet_answer, found, handed_out};

use ballot::item::Audits;
use base::refusal::Refusal;
use pairs::Pairs;

// Periods are below it, and no sheet has more items or more bytes.
const PERIODS_MOST: u8 = 8;

const ITEMS_MOST: u8 = 64;

pub const SHEET_MOST: usize = 2626;

// Where the pairs start: after period and count.
pub const PAIRS_AT: u8 = 2;

// Where an item's text stands in the sheet.
#[derive(Clone, Copy)]
pub struct Part {
    pub offset: usize,
    pub length: usize,
}

// The item count.
fn count(sheet: &[u8]) -> u8
    ensures { result ≡ count_on sheet.now }
{
    base::byte_at(sheet, 1)
}

// The pairs.
fn pairs_of<'a>(sheet: &'a [u8]) -> Pairs<'a>
    ensures { result ≡ pairs_over sheet.entry }
{
    Pairs {
        bytes: sheet,
        at: PAIRS_AT,
        count: count(sheet),
    }
}

// Whether the bytes are a sheet.
#[tactic(auto, unfolding(crate::specs::Sheet::sheet_ok))]
fn sheet_ok(sheet: &[u8]) -> bool
    ensures { result ≡ sheet_ok sheet.now }
{
    let pairs = pairs_of(sheet);
    PAIRS_AT as usize <= sheet.len()
        && base::byte_at(sheet, 0) < PERIODS_MOST
        && pairs.count <= ITEMS_MOST
        && pairs.are_ok()
        && ballot::item::all_items(Audits::Either, pairs)
        && twins::no_twins(pairs)
}

// Judges a sheet.
#[tactic(auto, unfolding(crate::specs::Found::sheet_answer, base::specs::Refusals::first))]
pub fn check_sheet(sheet: &[u8]) -> Result<(), Refusal>
    ensures { answer_of result ≡ sheet_answer sheet.now }
{
    if !sheet_ok(sheet) {
        return Err(Refusal::Sheet);
    }
    Ok(())
}

// Where item k stands in the sheet, or the first refusal that applies: `Sheet` for bytes that are no sheet, `Name` for a
// number of the count or above.
#[tactic(auto, unfolding(crate::specs::Found::found, base::specs::Refusals::judged))]
pub fn find_item(sheet: &[u8], k: u8) -> Result<Part, Refusal>
    ensures { result ≡ found sheet.now k }
{
    if !sheet_ok(sheet) {
        return Err(Refusal::Sheet);
    }
    let pairs = pairs_of(sheet);
    if pairs.count <= k {
        return Err(Refusal::Name);
    }
    Ok(Part {
        offset: pairs.offset(k) as usize,
        length: pairs.size(k) as usize,
    })
}

// The text of item k, as the part of the sheet that it is; none where the reader refuses.
pub fn hand_out(sheet: &[u8], k: u8) -> &[u8]
    ensures { result.now ≡ handed_out sheet.now k }
{
    match find_item(sheet, k) {
        Ok(part) => base::part_of(sheet, part.offset, part.length),
        Err(_) => &sheet[..0],
    }
}

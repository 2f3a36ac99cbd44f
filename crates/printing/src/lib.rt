// A published board as a sheet: for any table, state, period and buffer the sheet of the period's board, or a refusal.
// Table and state are validated once; what is refused alters nothing.
// It uses ballot and valid to judge, bag to find the board, text to write, and sheets for what a sheet is; of engine
// two laws, and no code.
#![tactic(auto)]

ghost use Rattle.std.specs.Prelude.{◌≡◌, ◌+◌, ◌<◌, ◌≤◌, length};
ghost use Rattle.header.specs.Header.{items_of};
ghost use Rattle.ballot.specs.Table.{refusal};
ghost use Rattle.text.specs.Wrote.{Put};
ghost use Rattle.sheets.specs.Made.{sheet_of};
ghost use Rattle.printing.specs.Board.{board_texts};
ghost use Rattle.printing.specs.Measured.{Measured, Printed};
ghost use Rattle.printing.specs.Written.{in_numbers, written, sheet_left, Judged};

use ballot::check_table;
use base::refusal::Refusal;
use header::Head;
use pairs::first_offset;
use text::Printer;

pub mod board; // the board of a period
mod parts; // the pairs and the texts of a board's items

// How many items, and how many bytes their texts have.
#[derive(Clone, Copy)]
pub struct Extent {
    pub count: u8,
    pub bytes: usize,
}

// Writes the sheet of a board whose items below m have this extent.
fn put_sheet(out: &mut Printer, table: &[u8], p: u8, board: u64, m: u8, e: Extent)
    requires { (refusal table.now ≡ 0) × (m ≤ 64) × Measured table.now board m e }
    ensures { Put out.old (sheet_of p (board_texts table.now board m)) out.new }
{
    out.byte(p);
    out.byte(e.count);
    parts::put_pairs(
        out,
        table,
        board,
        m,
        first_offset(sheets::PAIRS_AT, e.count),
    );
    parts::put_texts(out, table, board, m);
}

// Writes the sheet of a board of period p, as much of it as fits.
pub fn put_board(out: &mut Printer, table: &[u8], p: u8, board: u64, m: u8)
    requires { (refusal table.now ≡ 0) × (m ≡ items_of table.now) }
    ensures { Put out.old (sheet_of p (board_texts table.now board m)) out.new }
{
    let e = parts::measure(table, board, m);
    put_sheet(out, table, p, board, m, e);
}

// Writes the sheet of a board of period p, if there is room for it: its length.
fn print(table: &[u8], p: u8, board: u64, m: u8, sheet: &mut [u8]) -> Result<usize, Refusal>
    requires { (refusal table.now ≡ 0) × (m ≡ items_of table.now) }
    ensures { Printed (sheet_of p (board_texts table.now board m)) sheet.old
        sheet.new (in_numbers result) }
{
    let e = parts::measure(table, board, m);
    let length = first_offset(sheets::PAIRS_AT, e.count) + e.bytes;
    if sheet.len() < length {
        return Err(Refusal::Sheet);
    }
    put_sheet(&mut Printer::new(sheet), table, p, board, m, e);
    Ok(length)
}

// Writes the sheet of period p's board, on a table that was taken and a state that is ready: nothing is validated
// again.
fn write_board(table: &[u8], s: &[u8], h: Head, p: u8, sheet: &mut [u8]) -> Result<usize, Refusal>
    requires { Judged table.now s.now h }
    ensures { (in_numbers result ≡ written table.now s.now p (length sheet.old))
        × (sheet.new ≡ sheet_left table.now s.now p sheet.old) }
{
    if h.periods <= p {
        return Err(Refusal::Name);
    }
    match board::board_of(s, p) {
        Some(board) => print(table, p, board, h.items, sheet),
        None => Err(Refusal::Unknown),
    }
}

// Writes the sheet of period p's board over the buffer's start: its length, or the first refusal that applies, of the
// table, of the state, of the period (`Name`), for a period without a board (`Unknown`), for too short a buffer
// (`Sheet`).
pub fn write_sheet(table: &[u8], s: &[u8], p: u8, sheet: &mut [u8]) -> Result<usize, Refusal>
    ensures { (in_numbers result ≡ written table.now s.now p (length sheet.old))
        × (sheet.new ≡ sheet_left table.now s.now p sheet.old) }
{
    check_table(table)?;
    let h = header::head_of(table);
    if !valid::state_ok(s, h) {
        return Err(Refusal::State);
    }
    write_board(table, s, h, p, sheet)
}

// The parts of a sheet: how far a board's items reach, their pairs and their texts, item after item of the table.
ghost use Rattle.std.specs.Prelude.{◌≡◌, ◌+◌, ◌<◌, ◌≤◌};
ghost use Rattle.ballot.specs.Table.{refusal};
ghost use Rattle.text.specs.Wrote.{Put};
ghost use Rattle.sheets.specs.Made.{two_bytes, pair_bytes, pairs_from, joined};
ghost use Rattle.printing.specs.Board.{board_texts};
ghost use Rattle.printing.specs.Measured.{Measured, pair_on, text_if};

use crate::Extent;
use ballot::reader::item_at;
use bits::has_bit;
use text::Printer;

// The extent with item x more, if the board has it.
fn with_item(table: &[u8], board: u64, x: u8, e: Extent) -> Extent
    requires { (refusal table.now ≡ 0) × (x < 64) × Measured table.now board x e }
    ensures { Measured table.now board (x + 1) result }
{
    if !has_bit(board, x) {
        return e;
    }
    let text = item_at(table, x);
    Extent {
        count: e.count + 1,
        bytes: e.bytes + text.len(),
    }
}

// The extent of a board's items below m.
pub fn measure(table: &[u8], board: u64, m: u8) -> Extent
    requires { (refusal table.now ≡ 0) × (m ≤ 64) }
    ensures { Measured table.now board m result }
{
    let mut e = Extent { count: 0, bytes: 0 };
    for x in 0..m {
        e = with_item(table, board, x, e);
    }
    e
}

// Writes a number as two bytes, high byte first.
fn put_number(out: &mut Printer, n: usize)
    ensures { Put out.old (two_bytes n) out.new }
{
    out.byte((n / 256 % 256) as u8);
    out.byte((n % 256) as u8);
}

// Writes a pair.
fn put_pair(out: &mut Printer, offset: usize, size: usize)
    ensures { Put out.old (pair_bytes offset size) out.new }
{
    put_number(out, offset);
    put_number(out, size);
}

// Writes the pair of item x, if the board has it.
fn put_pair_on(out: &mut Printer, table: &[u8], board: u64, offset: usize, x: u8)
    requires { x < 64 }
    ensures { Put out.old (pair_on table.now board offset x) out.new }
{
    if !has_bit(board, x) {
        return;
    }
    put_pair(out, offset, item_at(table, x).len());
}

// Writes the pairs of a board's items below m, whose texts stand one after the other from `first` on.
pub fn put_pairs(out: &mut Printer, table: &[u8], board: u64, m: u8, first: usize)
    requires { (refusal table.now ≡ 0) × (m ≤ 64) × (first ≤ 65536) }
    ensures { Put out.old (pairs_from first (board_texts table.now board m)) out.new }
{
    let mut e = Extent { count: 0, bytes: 0 };
    for x in 0..m {
        put_pair_on(out, table, board, first + e.bytes, x);
        e = with_item(table, board, x, e);
    }
}

// Writes the text of item x, if the board has it.
fn put_text_on(out: &mut Printer, table: &[u8], board: u64, x: u8)
    requires { x < 64 }
    ensures { Put out.old (text_if table.now board x) out.new }
{
    if !has_bit(board, x) {
        return;
    }
    out.word(item_at(table, x));
}

// Writes the texts of a board's items below m.
pub fn put_texts(out: &mut Printer, table: &[u8], board: u64, m: u8)
    requires { m ≤ 64 }
    ensures { Put out.old (joined (board_texts table.now board m)) out.new }
{
    for x in 0..m {
        put_text_on(out, table, board, x);
    }
}

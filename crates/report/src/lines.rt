// A line of each kind.
ghost use Rattle.std.specs.Prelude.{◌<◌, ◌≤◌};
ghost use Rattle.base.specs.Refusals.{number_of};
ghost use Rattle.text.specs.Wrote.{Put, each};
ghost use Rattle.report.specs.Lines.{refused_line, head_line, step_line, db_line, receipt_line, board_item, board_line};
ghost use Rattle.report.specs.Lines.{totals_line};

use base::refusal::Refusal;
use bits::has_bit;
use figures::Totals;
use text::Printer;

// The line of an input that is refused.
pub fn put_refused(out: &mut Printer, r: Refusal)
    ensures { Put out.old (refused_line (number_of r)) out.new }
{
    out.word(b"refused");
    out.field(r.number() as u64);
    out.byte(b'\n');
}

// The first line: n, t and h.
pub fn put_head(out: &mut Printer, n: u8, t: u8, h: u8)
    ensures { Put out.old (head_line n t h) out.new }
{
    out.word(b"peers");
    out.field(n as u64);
    out.word(b" threshold");
    out.field(t as u64);
    out.word(b" honest");
    out.field(h as u64);
    out.byte(b'\n');
}

// The line of step k.
pub fn put_step(out: &mut Printer, k: u64, answer: u8)
    ensures { Put out.old (step_line k answer) out.new }
{
    out.decimal(k);
    out.field(answer as u64);
    out.byte(b'\n');
}

// The line of an item in a peer's database.
pub fn put_db(out: &mut Printer, j: u8, p: u8, x: u8, signers: u32)
    ensures { Put out.old (db_line j p x signers) out.new }
{
    out.word(b"db");
    out.field(j as u64);
    out.field(p as u64);
    out.field(x as u64);
    out.field(signers as u64);
    out.byte(b'\n');
}

// The line of a receipt.
pub fn put_receipt(out: &mut Printer, p: u8, x: u8)
    ensures { Put out.old (receipt_line p x) out.new }
{
    out.word(b"receipt");
    out.field(p as u64);
    out.field(x as u64);
    out.byte(b'\n');
}

// A blank and item x, if the board has it.
fn put_item(out: &mut Printer, board: u64, x: u8)
    requires { x < 64 }
    ensures { Put out.old (board_item board x) out.new }
{
    if has_bit(board, x) {
        out.field(x as u64);
    }
}

// The items of a board, of m that there are.
fn put_items(out: &mut Printer, board: u64, m: u8)
    requires { m ≤ 64 }
    ensures { Put out.old (each (board_item board) m) out.new }
{
    for x in 0..m {
        put_item(out, board, x);
    }
}

// The line of a board.
pub fn put_board(out: &mut Printer, m: u8, p: u8, board: u64)
    requires { m ≤ 64 }
    ensures { Put out.old (board_line m p board) out.new }
{
    out.word(b"board");
    out.field(p as u64);
    put_items(out, board, m);
    out.byte(b'\n');
}

// The line of the totals.
pub fn put_totals(out: &mut Printer, f: Totals)
    ensures { Put out.old (totals_line f) out.new }
{
    out.word(b"totals");
    out.field(f.posts as u64);
    out.field(f.receipts as u64);
    out.field(f.items as u64);
    out.byte(b'\n');
}

// What the report shows of a state: databases, receipts, boards, totals, and its last line.
ghost use Rattle.std.specs.Prelude.{◌≡◌, ◌+◌, ◌<◌, ◌≤◌};
ghost use Rattle.state.specs.Contents.{contents, Canon};
ghost use Rattle.text.specs.Wrote.{Put};
ghost use Rattle.report.specs.Rows.{set_line, row_lines, row_in};
ghost use Rattle.report.specs.State.{db_peer, db_lines, receipt_item, receipt_period, receipt_lines};
ghost use Rattle.report.specs.State.{entry_line, bag_line, board_lines, foot, state_lines};

use crate::lines::{put_board, put_db, put_receipt, put_totals};
use bag::{bag_len, entry_at};
use figures::Totals;
use header::quorum::signer_count;
use header::{Head, Signers};
use rules::Entry;
use sets::database::database;
use state::facts::is_there;
use state::{Fact, layout};
use text::Printer;

// The line of item x, if its set is not empty.
fn put_db_item(out: &mut Printer, set: Signers, j: u8, p: u8, x: u8)
    ensures { Put out.old (set_line j p x set) out.new }
{
    let signers = signer_count(set);
    if 0 < signers {
        put_db(out, j, p, x, signers);
    }
}

// One period of a peer's database.
fn put_db_period(out: &mut Printer, sets: [Signers; 64], h: Head, j: u8, p: u8)
    requires { h.items ≤ 64 }
    ensures { Put out.old (row_lines h sets j p) out.new }
{
    for x in 0..h.items {
        put_db_item(out, sets[x as usize], j, p, x);
    }
}

// The sets of period p; those of a period for which there is no room are empty.
fn row_in(d: [[Signers; 64]; 8], p: u8) -> [Signers; 64]
    ensures { result ≡ row_in d p }
{
    let i = p as usize;
    if i < layout::PERIODS {
        return d[i];
    }
    [Signers(0); 64]
}

// The database of peer k + 1.
fn put_db_peer(out: &mut Printer, s: &[u8], h: Head, k: u8)
    requires { Canon s.now × (k < 16) × (h.items ≤ 64) }
    ensures { Put out.old (db_peer h (contents s.now) k) out.new }
{
    let j = k + 1;
    let d = database(s, j);
    for p in 0..h.periods {
        put_db_period(out, row_in(d, p), h, j, p);
    }
}

// The databases of all peers.
fn put_dbs(out: &mut Printer, s: &[u8], h: Head)
    requires { Canon s.now × (h.n ≤ 16) × (h.items ≤ 64) }
    ensures { Put out.old (db_lines h (contents s.now)) out.new }
{
    for k in 0..h.n {
        put_db_peer(out, s, h, k);
    }
}

// The line of item x, if there is a receipt.
fn put_receipt_item(out: &mut Printer, s: &[u8], p: u8, x: u8)
    requires { Canon s.now }
    ensures { Put out.old (receipt_item (contents s.now) p x) out.new }
{
    if is_there(s, Fact::Receipted(p, x)) {
        put_receipt(out, p, x);
    }
}

// The receipts of one period.
fn put_receipt_period(out: &mut Printer, s: &[u8], h: Head, p: u8)
    requires { Canon s.now }
    ensures { Put out.old (receipt_period h (contents s.now) p) out.new }
{
    for x in 0..h.items {
        put_receipt_item(out, s, p, x);
    }
}

// The receipts of all periods.
fn put_receipts(out: &mut Printer, s: &[u8], h: Head)
    requires { Canon s.now }
    ensures { Put out.old (receipt_lines h (contents s.now)) out.new }
{
    for p in 0..h.periods {
        put_receipt_period(out, s, h, p);
    }
}

// The line of an entry, if it is a board.
fn put_entry(out: &mut Printer, h: Head, x: Entry)
    requires { h.items ≤ 64 }
    ensures { Put out.old (entry_line h x) out.new }
{
    if let Entry::Board(p, board) = x {
        put_board(out, h.items, p, board);
    }
}

// The line of entry e of the bag, if it is a board.
fn put_bag_entry(out: &mut Printer, s: &[u8], h: Head, e: usize)
    requires { Canon s.now × (h.items ≤ 64) }
    ensures { Put out.old (bag_line h (contents s.now) e) out.new }
{
    put_entry(out, h, entry_at(s, e));
}

// The boards, in the bag's order.
fn put_boards(out: &mut Printer, s: &[u8], h: Head)
    requires { Canon s.now × (h.items ≤ 64) }
    ensures { Put out.old (board_lines h (contents s.now)) out.new }
{
    for e in 0..bag_len(s) {
        put_bag_entry(out, s, h, e);
    }
}

// The report's last two lines.
fn put_foot(out: &mut Printer, f: Totals)
    ensures { Put out.old (foot f) out.new }
{
    put_totals(out, f);
    out.word(b"end\n");
}

// The report from its databases to its end.
pub fn put_state(out: &mut Printer, s: &[u8], h: Head)
    requires { Canon s.now × (h.n ≤ 16) × (h.items ≤ 64) }
    ensures { Put out.old (state_lines h (contents s.now)) out.new }
{
    put_dbs(out, s, h);
    put_receipts(out, s, h);
    put_boards(out, s, h);
    put_foot(out, figures::count(s, h));
}

// The rehearsal: for any input bytes the whole report, in a lent state and a lent output.
// The table is validated once, its rows of clashes are made once, and each step is run in place.
// It uses header and ballot to find the table and to judge it, clash for its rows, engine for the steps, and report for
// the text.
#![tactic(auto)]

ghost use Rattle.std.specs.Prelude.{◌≡◌, ◌≤◌, length};
ghost use Rattle.text.specs.Wrote.{over, Put};
ghost use Rattle.rehearsal.specs.Rehearsal.{reported, state_left, report_most};

use report::lines::put_refused;
use text::Printer;

// The most bytes of an input that is judged.
pub const INPUT_MOST: usize = 65536;

// No report is longer.
pub const REPORT_MOST: usize = 222000;

pub mod input; // where the table ends, what is refused, and the steps
pub mod run; // the steps, and the report around them

// Writes the report, or the line of the refusal.
fn put_reported(input: &[u8], s: &mut [u8], out: &mut Printer)
    ensures { Put out.old (reported input.now s.old) out.new × (s.new ≡ state_left input.now s.old) }
{
    match input::check_lent(input, s) {
        Ok(()) => run::play(input, input::table_in(input), s, out),
        Err(refusal) => put_refused(out, refusal),
    }
}

// Rehearses the input and answers the report's length; as much of the report as fits is written.
// What is refused, the input with 15 or 1 to 4 or the state's length with 14, leaves the state as it was.
pub fn rehearse(input: &[u8], s: &mut [u8], out: &mut [u8]) -> usize
    ensures value { result ≡ length (reported input.now s.old) }
    ensures upper_bound { result ≤ report_most }
    ensures out_after { out.new ≡ over out.old 0 (reported input.now s.old) }
    ensures s_after { s.new ≡ state_left input.now s.old }
{
    let mut printer = Printer::new(out);
    put_reported(input, s, &mut printer);
    printer.at
}

// A short rehearsal that still refuses (document 02, P7): for any input bytes the numbers of the steps that are left.
// The table is validated once and its rows of clashes are made once. State and flags are the function's own, since 18
// is known only after steps have run.
// It uses trials for the steps that are left, rehearsal to judge the input, and text and report for the output.
#![tactic(auto)]

ghost use Rattle.std.specs.Prelude.{◌≡◌, ◌≤◌, length};
ghost use Rattle.text.specs.Wrote.{over, Put};
ghost use Rattle.shrinking.specs.Shrunk.{shrunk, shrunk_most};

use rehearsal::input::{check_input, table_in};
use report::lines::put_refused;
use state::layout::SIZE;
use text::Printer;

// No input has more steps, a short tail counted.
pub const STEPS_MOST: usize = 5041;

// No output is longer.
pub const SHRUNK_MOST: usize = 25205;

pub mod print; // the numbers of the steps that are left
pub mod cut; // all of it, in lent bytes

// Writes the numbers of the steps that are left, or the line of the refusal.
fn put_shrunk(input: &[u8], out: &mut Printer)
    ensures { Put out.old (shrunk input.now) out.new }
{
    match check_input(input) {
        Ok(()) => {
            let mut flags = [0u8; STEPS_MOST];
            let mut state = [0u8; SIZE];
            cut::cut(input, table_in(input), &mut flags, &mut state, out)
        }
        Err(refusal) => put_refused(out, refusal),
    }
}

// Shrinks the input's rehearsal and answers the length of the text; as much of it as fits is written. The text is the
// step numbers that are left, one a line, or the line of the refusal: 15, 1 to 4, then 18.
pub fn shrink(input: &[u8], out: &mut [u8]) -> usize
    ensures value { result ≡ length (shrunk input.now) }
    ensures upper_bound { result ≤ shrunk_most }
    ensures out_after { out.new ≡ over out.old 0 (shrunk input.now) }
{
    let mut printer = Printer::new(out);
    put_shrunk(input, &mut printer);
    printer.at
}

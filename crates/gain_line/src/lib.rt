// The gain of a file of steps as a line of text, for any input bytes.
// It uses gains to count, text and report for the line, and rehearsal for how long an input may be.
#![tactic(auto)]

ghost use Rattle.std.specs.Prelude.{◌≡◌, ◌≤◌, length};
ghost use Rattle.text.specs.Wrote.{over, Put};
ghost use Rattle.gain_line.specs.Told.{gain_line, told, told_most};

use base::refusal::Refusal;
use rehearsal::INPUT_MOST;
use report::lines::put_refused;
use text::Printer;

// No output is longer.
pub const TOLD_MOST: usize = 11;

// The line of the gain.
fn put_gain(out: &mut Printer, n: u64)
    ensures { Put out.old (gain_line n) out.new }
{
    out.word(b"gain");
    out.field(n);
    out.byte(b'\n');
}

// The gain of the steps of the input, or 15 where it is too long.
fn put_told(input: &[u8], out: &mut Printer)
    ensures { Put out.old (told input.now) out.new }
{
    if INPUT_MOST < input.len() {
        return put_refused(out, Refusal::Input);
    }
    put_gain(out, gains::gain(input) as u64);
}

// The same, with its length.
pub fn tell(input: &[u8], out: &mut [u8]) -> usize
    ensures value { result ≡ length (told input.now) }
    ensures upper_bound { result ≤ told_most }
    ensures out_after { out.new ≡ over out.old 0 (told input.now) }
{
    let mut printer = Printer::new(out);
    put_told(input, &mut printer);
    printer.at
}

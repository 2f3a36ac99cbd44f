// sheet: reads a period, one byte, and a rehearsal from standard input, and writes the sheet of that period's board to
// standard output.
// One byte more than an input may have is read, so that a longer one shows. All that matters is in the crate hall.
#![tactic(auto)]

use rehearsal::INPUT_MOST;
use sheets::SHEET_MOST;
use std::io::Write;

fn main(rt: HostRuntime) {
    let mut input = [0u8; INPUT_MOST + 1];
    let got = streams::read_full(&mut rt.stdin(), &mut input);
    let mut out = [0u8; SHEET_MOST];
    let size = hall::hang(&input[..got], &mut out);
    let _ = rt.stdout().write_all(&out[..size]);
}

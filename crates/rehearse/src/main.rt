// rehearse: reads a table and steps from standard input and writes the report to standard output.
// One byte more than a rehearsal may have is read, so that a longer input shows. All that matters is in the crate
// rehearsal.
#![tactic(auto)]

use rehearsal::{INPUT_MOST, REPORT_MOST};
use state::layout::SIZE;
use std::io::Write;

fn main(rt: HostRuntime) {
    let mut input = [0u8; INPUT_MOST + 1];
    let got = streams::read_full(&mut rt.stdin(), &mut input);
    let mut state = [0u8; SIZE];
    let mut out = [0u8; REPORT_MOST];
    let size = rehearsal::rehearse(&input[..got], &mut state, &mut out);
    let _ = rt.stdout().write_all(&out[..size]);
}

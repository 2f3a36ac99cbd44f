// shrink: reads a table and steps from standard input and writes the numbers of the steps that are left to standard
// output.
// One byte more than a rehearsal may have is read, so that a longer input shows. All that matters is in the crate
// shrinking.
#![tactic(auto)]

use rehearsal::INPUT_MOST;
use shrinking::SHRUNK_MOST;
use std::io::Write;

fn main(rt: HostRuntime) {
    let mut input = [0u8; INPUT_MOST + 1];
    let got = streams::read_full(&mut rt.stdin(), &mut input);
    let mut out = [0u8; SHRUNK_MOST];
    let size = shrinking::shrink(&input[..got], &mut out);
    let _ = rt.stdout().write_all(&out[..size]);
}

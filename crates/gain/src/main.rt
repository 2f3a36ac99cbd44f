// gain: reads a file of steps from standard input and writes how many entries they can add to the bag to standard
// output.
// One byte more than an input may have is read, so that a longer one shows. All that matters is in the crate gain_line.
#![tactic(auto)]

use gain_line::TOLD_MOST;
use rehearsal::INPUT_MOST;
use std::io::Write;

fn main(rt: HostRuntime) {
    let mut input = [0u8; INPUT_MOST + 1];
    let got = streams::read_full(&mut rt.stdin(), &mut input);
    let mut out = [0u8; TOLD_MOST];
    let size = gain_line::tell(&input[..got], &mut out);
    let _ = rt.stdout().write_all(&out[..size]);
}

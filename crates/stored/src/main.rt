// Runs stored rehearsals one after the other and writes their reports, which are compared with those of an independent
// engine.
// Standard input has their number, then for each its length and its bytes; a number has four bytes, high byte first.
#![tactic(auto)]

ghost use Rattle.io.specs.Counts.{IsPrefixLen};

use rehearsal::{INPUT_MOST, REPORT_MOST};
use state::layout::SIZE;
use std::io::{Read, Write};
use streams::read_full;

// The next number.
fn next<R: Read>(from: &mut R) -> usize {
    let mut bytes = [0u8; 4];
    read_full(from, &mut bytes);
    base::number_at(&bytes, 0, 4) as usize
}

// Reads the next bytes, as many as are asked for and have room, and answers how many came.
fn read_next<R: Read>(from: &mut R, input: &mut [u8], size: usize) -> usize
    ensures { IsPrefixLen result input.new }
{
    if input.len() <= size {
        return read_full(from, input);
    }
    read_full(from, &mut input[..size])
}

// Reads a rehearsal of so many bytes and writes its report.
fn rehearse(rt: &HostRuntime, size: usize) {
    let mut input = [0u8; INPUT_MOST + 1];
    let got = read_next(&mut rt.stdin(), &mut input, size);
    let mut state = [0u8; SIZE];
    let mut out = [0u8; REPORT_MOST];
    let length = rehearsal::rehearse(&input[..got], &mut state, &mut out);
    let _ = rt.stdout().write_all(&out[..length]);
}

fn main(rt: HostRuntime) {
    for _ in 0..next(&mut rt.stdin()) {
        rehearse(&rt, next(&mut rt.stdin()));
    }
}

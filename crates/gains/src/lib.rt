// How many entries a file of steps can add to the bag, from its bytes alone (document 02, P11).
// It uses base to read.
#![tactic(auto)]

ghost use Rattle.std.specs.Prelude.{◌≡◌, ◌+◌, ◌*◌, ◌/◌, ◌<◌, ◌≤◌, length};
ghost use Rattle.base.specs.Bytes.{byte_at};
ghost use Rattle.base.specs.Sums.{sum};
ghost use Rattle.gains.specs.Gain.{count_of, adds, gain};
ghost use Rattle.gains.specs.File.{file_call, calls_to, file_calls, Turns};

use crate::different::count_backings;
use base::byte_at;

mod different; // the steps 16, each counted once

// How many steps there are: a short tail is none.
fn step_count(s: &[u8]) -> usize
    ensures { result ≡ length s.now / 13 }
{
    s.len() / 13
}

// Whether step k is a hash, a publish or a false hash.
fn adds(s: &[u8], k: usize) -> bool
    requires { 13 * k + 13 ≤ length s.now }
    ensures { result ≡ adds (file_call s.now k) }
{
    matches!(byte_at(s, 13 * k), 9 | 12 | 15)
}

// The steps 9, 12 and 15 among the first n.
fn count_added(s: &[u8], n: usize) -> usize
    requires { 13 * n ≤ length s.now }
    ensures { (result ≡ count_of adds (calls_to s.now n)) × (result ≤ n) }
{
    let mut r = 0;
    for k in 0..n {
        r += adds(s, k) as usize;
    }
    r
}

// Counts step k if it is a back: at most 8 for each peer byte.
fn count_turn(s: &[u8], k: usize, turns: &mut [u8])
    requires { (13 * k + 13 ≤ length s.now) × Turns s.now k turns.old }
    ensures { Turns s.now (k + 1) turns.new }
{
    if byte_at(s, 13 * k) == 11 {
        let j = byte_at(s, 13 * k + 1) as usize;
        turns[j] = (turns[j] + 1).min(8);
    }
}

// Counts the backs among the first n steps.
fn count_turns(s: &[u8], n: usize, turns: &mut [u8])
    requires { (13 * n ≤ length s.now) × Turns s.now 0 turns.old }
    ensures { Turns s.now n turns.new }
{
    for k in 0..n {
        count_turn(s, k, turns);
    }
}

// The sum of the first n numbers.
pub(crate) fn sum(numbers: &[u8], n: usize) -> usize
    requires { (n ≤ length numbers.now) × (n ≤ 8192) }
    ensures { (result ≡ sum n (byte_at numbers.now)) × (result ≤ 255 * n) }
{
    let mut r = 0;
    for k in 0..n {
        r += numbers[k] as usize;
    }
    r
}

// How many entries the steps of a file can add to the bag.
pub fn gain(steps: &[u8]) -> usize
    ensures { result ≡ gain (file_calls steps.now) }
{
    let n = step_count(steps);
    let mut turns = [0u8; 256];
    count_turns(steps, n, &mut turns);
    count_added(steps, n) + count_backings(steps, n) + sum(&turns, 256)
}

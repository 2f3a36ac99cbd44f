// Periods: 9.
ghost use Rattle.std.specs.Prelude.{◌≡◌, ltb};
ghost use Rattle.rules.specs.Rules.{none_open, not_closed};
ghost use Rattle.field_state.specs.Holding.{box_of, Canon};

use field_state::part::{current, to_back};
use header::Head;

// No period is open.
pub fn none_open(s: &[u8], h: Head) -> bool
    requires { Canon s.now }
    ensures { result ≡ none_open h.periods (box_of s.now).current }
{
    h.periods <= current(s)
}

// Period p is beyond the open one.
pub fn beyond(s: &[u8], p: u8) -> bool
    requires { Canon s.now }
    ensures { result ≡ ltb (box_of s.now).current p }
{
    current(s) < p
}

// Period p is not closed.
pub fn not_closed(s: &[u8], p: u8) -> bool
    requires { Canon s.now }
    ensures { result ≡ not_closed (box_of s.now).current p }
{
    current(s) <= p
}

// Every closed period is backed.
pub fn all_backed(s: &[u8]) -> bool
    requires { Canon s.now }
    ensures { result ≡ not_closed (box_of s.now).current (box_of s.now).to_back }
{
    current(s) <= to_back(s)
}

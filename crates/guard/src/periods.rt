// Whether a peer is down, and its periods: 8 and 9.
ghost use Rattle.std.specs.Prelude.{◌≡◌, eqb, ltb};
ghost use Rattle.rules.specs.Rules.{none_open, not_closed};
ghost use Rattle.state.specs.declared.Number.TheVariants.{DownOf};
ghost use Rattle.state.specs.Contents.{contents, Canon, current_on, to_back_on};

use header::Head;
use state::numbers::{current_of, down_of, to_back_of};

// Peer j is down.
pub fn is_down(s: &[u8], j: u8) -> bool
    requires { Canon s.now }
    ensures { result ≡ eqb ((contents s.now).number (DownOf j)) 1 }
{
    down_of(s, j) == 1
}

// Peer j has no open period.
pub fn none_open(s: &[u8], h: Head, j: u8) -> bool
    requires { Canon s.now }
    ensures { result ≡ none_open h.periods (current_on s.now j) }
{
    h.periods <= current_of(s, j)
}

// Period p is beyond peer j's open one.
pub fn beyond(s: &[u8], j: u8, p: u8) -> bool
    requires { Canon s.now }
    ensures { result ≡ ltb (current_on s.now j) p }
{
    current_of(s, j) < p
}

// Peer j has not closed period p.
pub fn not_closed(s: &[u8], j: u8, p: u8) -> bool
    requires { Canon s.now }
    ensures { result ≡ not_closed (current_on s.now j) p }
{
    current_of(s, j) <= p
}

// Peer j has backed every period that it has closed.
pub fn all_backed(s: &[u8], j: u8) -> bool
    requires { Canon s.now }
    ensures { result ≡ not_closed (current_on s.now j) (to_back_on s.now j) }
{
    current_of(s, j) <= to_back_of(s, j)
}

// What is posted, held and signed: 10.
ghost use Rattle.std.specs.Prelude.{◌≡◌, not};
ghost use Rattle.state.specs.declared.Fact.TheVariants.{Posted, Signed, Held};
ghost use Rattle.state.specs.Contents.{Canon, has_on, current_on};

use state::facts::{is_held, is_posted, is_signed};
use state::numbers::current_of;

// Item x is not posted.
pub fn not_posted(s: &[u8], x: u8) -> bool
    requires { Canon s.now }
    ensures { result ≡ not (has_on s.now (Posted x)) }
{
    !is_posted(s, x)
}

// Peer j does not hold item x in its open period.
pub fn not_held(s: &[u8], j: u8, x: u8) -> bool
    requires { Canon s.now }
    ensures { result ≡ not (has_on s.now (Held j (current_on s.now j) x)) }
{
    !is_held(s, j, current_of(s, j), x)
}

// Peer k's signature on item x in period p is absent.
pub fn not_signed(s: &[u8], k: u8, p: u8, x: u8) -> bool
    requires { Canon s.now }
    ensures { result ≡ not (has_on s.now (Signed k p x)) }
{
    !is_signed(s, k, p, x)
}

// A peer's counters raised: read as the struct that is lent to close and back, and the one that moved stored.
ghost use Rattle.std.specs.Prelude.{◌≡◌, ◌+◌, ◌<◌};
ghost use Rattle.state.specs.declared.Number.TheVariants.{CurrentOf, ToBackOf};
ghost use Rattle.state.specs.Facts.{Peer};
ghost use Rattle.state.specs.Contents.{contents, Canon, Holds, store, current_on, to_back_on};
ghost use Rattle.closing.specs.Counting.{counters_of};

use counters::Counters;
use state::Number;
use state::numbers::{current_of, set_value, to_back_of};

// Peer j's counters.
fn counters_of(s: &[u8], j: u8) -> Counters
    requires { Canon s.now }
    ensures { result ≡ counters_of (contents s.now) j }
{
    Counters {
        current: current_of(s, j),
        to_back: to_back_of(s, j),
    }
}

// Raises peer j's open period by one.
pub fn raise_current(s: &mut [u8], j: u8)
    requires { Canon s.old × Peer j × (current_on s.old j < 255) }
    ensures { Holds s.new (store (CurrentOf j) (current_on s.old j + 1)
        (contents s.old)) }
{
    let k = counters::after_close(counters_of(s, j));
    set_value(s, Number::CurrentOf(j), k.current);
}

// Raises the next period that peer j is to back by one.
pub fn raise_to_back(s: &mut [u8], j: u8)
    requires { Canon s.old × Peer j × (to_back_on s.old j < 255) }
    ensures { Holds s.new (store (ToBackOf j) (to_back_on s.old j + 1)
        (contents s.old)) }
{
    let k = counters::after_back(counters_of(s, j));
    set_value(s, Number::ToBackOf(j), k.to_back);
}

// The peer's part, changed.
ghost use Rattle.std.specs.Prelude.{◌≡◌, ◌+◌, ◌<◌};
ghost use Rattle.state.specs.Facts.{Cell, Spot};
ghost use Rattle.field_state.specs.Holding.{box_of, Canon, Holds};
ghost use Rattle.field_state.specs.Parts.{with_held, with_given, with_known, with_current, with_to_back, with_down};

use crate::layout;
use crate::part::{current, to_back};
use counters::Counters;
use state::layout::PEERS;
use state::place::cell_of;

// It holds item x in period p.
pub fn hold(s: &mut [u8], p: u8, x: u8)
    requires { Canon s.old × Cell p x }
    ensures { Holds s.new (with_held p x (box_of s.old)) }
{
    bits::put(s, 8 * layout::HELD + cell_of(p, x));
}

// It gave its receipt share on item x in period p.
pub fn give(s: &mut [u8], p: u8, x: u8)
    requires { Canon s.old × Cell p x }
    ensures { Holds s.new (with_given p x (box_of s.old)) }
{
    bits::put(s, 8 * layout::GAVE + cell_of(p, x));
}

// It knows peer k's signature on item x in period p.
pub fn know(s: &mut [u8], p: u8, x: u8, k: u8)
    requires { Canon s.old × Spot k p x }
    ensures { Holds s.new (with_known p x k (box_of s.old)) }
{
    bits::put(
        s,
        8 * layout::KNOWN + (cell_of(p, x) * PEERS + (k - 1) as usize),
    );
}

// Its counters.
fn counters_of(s: &[u8]) -> Counters
    requires { Canon s.now }
    ensures { (result.current ≡ (box_of s.now).current) × (result.to_back ≡ (box_of s.now).to_back) }
{
    Counters {
        current: current(s),
        to_back: to_back(s),
    }
}

// The open period rises by one.
pub fn raise_current(s: &mut [u8])
    requires { Canon s.old × ((box_of s.old).current < 255) }
    ensures { Holds s.new
        (with_current ((box_of s.old).current + 1) (box_of s.old)) }
{
    s[layout::CURRENT] = counters::after_close(counters_of(s)).current;
}

// The next period to back rises by one.
pub fn raise_to_back(s: &mut [u8])
    requires { Canon s.old × ((box_of s.old).to_back < 255) }
    ensures { Holds s.new
        (with_to_back ((box_of s.old).to_back + 1) (box_of s.old)) }
{
    s[layout::TO_BACK] = counters::after_back(counters_of(s)).to_back;
}

// It is down, or up.
pub fn set_down(s: &mut [u8], down: bool)
    requires { Canon s.old }
    ensures { Holds s.new (with_down down (box_of s.old)) }
{
    s[layout::DOWN] = down as u8;
}

// What the peer holds: 10 and 11.
ghost use Rattle.std.specs.Prelude.{◌≡◌, not};
ghost use Rattle.base.specs.Below.{any};
ghost use Rattle.rules.specs.Table.{clashing};
ghost use Rattle.view.specs.View.{in_row, table_of};
ghost use Rattle.field_state.specs.Holding.{box_of, Canon};
ghost use Rattle.field_state.specs.Ready.{Ready};
ghost use Rattle.field_guard.specs.Common.{holds_of};

use field_state::part::{current, held_in, holds};
use guard::held::sets_meet;
use header::Head;

// Item x is not held in the open period.
pub fn not_held(s: &[u8], x: u8) -> bool
    requires { Canon s.now }
    ensures { result ≡ not ((box_of s.now).held (box_of s.now).current x) }
{
    !holds(s, current(s), x)
}

// Whether an item of the row is held in one of the periods.
fn ever_holds(s: &[u8], row: u64, periods: u8) -> bool
    requires { Canon s.now }
    ensures { result ≡ any periods (holds_of s.now row) }
{
    (0..periods).any(|q| sets_meet(held_in(s, q), row))
}

// An item of the row is held, in any period: one that clashes with x, where the row has all that do.
pub fn holds_clash(s: &[u8], h: Head, row: u64, x: u8) -> bool
    requires { Ready h s.now }
    ensures { result ≡ clashing (table_of h (in_row row)) (box_of s.now).held x }
{
    ever_holds(s, row, h.periods)
}

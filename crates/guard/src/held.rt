// Clashes with what a peer holds: 11.
ghost use Rattle.std.specs.Prelude.{◌≡◌};
ghost use Rattle.base.specs.Below.{any};
ghost use Rattle.rules.specs.Table.{clashing};
ghost use Rattle.state.specs.Contents.{contents, Canon};
ghost use Rattle.view.specs.View.{in_row, table_of, state_on};
ghost use Rattle.view.specs.Ready.{Ready};
ghost use Rattle.guard.specs.Common.{in_common, holds_of};

use header::Head;
use sets::whole::held_in;

// Whether two sets of items have an item in common.
pub fn sets_meet(a: u64, b: u64) -> bool
    ensures { result ≡ in_common a b }
{
    a & b != 0
}

// Whether peer j holds, in one of the periods, an item of the row.
fn ever_holds(s: &[u8], row: u64, j: u8, periods: u8) -> bool
    requires { Canon s.now }
    ensures { result ≡ any periods (holds_of (contents s.now) row j) }
{
    (0..periods).any(|q| sets_meet(held_in(s, j, q), row))
}

// Peer j holds, in any period, an item of the row: one that clashes with x, where the row has all that do.
pub fn holds_clash(s: &[u8], h: Head, row: u64, j: u8, x: u8) -> bool
    requires { Ready h s.now }
    ensures { result ≡ clashing (table_of h (in_row row)) ((state_on s.now).held j) x }
{
    ever_holds(s, row, j, h.periods)
}

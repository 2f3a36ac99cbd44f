// Row 14 of the numbers on the report: whether a lent buffer is a state of the table.
// A state need not be one that steps lead to.
// It uses bag_valid for the bag, and state's layout and bits for the rest.
// As bag_valid does, it reads bytes by their places.
#![tactic(auto)]

ghost use Rattle.std.specs.Prelude.{◌≡◌};
ghost use Rattle.valid.specs.StateOk.{state_ok};
ghost use Rattle.view.specs.Ready.{Room};

use crate::counters::peers_ok;
use crate::sets::facts_ok;
use bag_valid::{bag_ok, count_of};
use header::Head;
use state::layout::SIZE;

mod counters;
mod hashes;
mod mask;
mod rows;
mod sets;

// Row 14: whether the bytes are a state of the table.
#[tactic(auto, using(bag_valid::proofs::Steps::few_entries), unfolding(crate::specs::StateOk::state_ok))]
pub fn state_ok(s: &[u8], h: Head) -> bool
    requires { Room h }
    ensures { result ≡ state_ok h s.now }
{
    s.len() == SIZE && bag_ok(s, h) && peers_ok(s, h) && facts_ok(s, h, count_of(s))
}

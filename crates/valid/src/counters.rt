// The counters and the flag of each peer.
ghost use Rattle.std.specs.Prelude.{◌≡◌, length};
ghost use Rattle.state.specs.Layout.{size};
ghost use Rattle.valid.specs.StateOk.{numbers_ok, peers_ok};

use header::Head;
use state::layout::{CURRENT, DOWN, PEERS, TO_BACK};

// Whether p, c and the flag of peer j are within the table's ranges.
#[tactic(auto, unfolding(crate::specs::StateOk::numbers_ok))]
fn numbers_ok(h: Head, j: usize, p: u8, c: u8, d: u8) -> bool
    ensures { result ≡ numbers_ok h j p c d }
{
    if j > h.n as usize {
        return p as usize + c as usize + d as usize == 0;
    }
    p <= h.periods && c <= p && d <= 1
}

// Whether they are for each peer for which there is room.
pub(crate) fn peers_ok(s: &[u8], h: Head) -> bool
    requires { length s.now ≡ size }
    ensures { result ≡ peers_ok h s.now }
{
    (0..PEERS).all(|i| numbers_ok(h, i + 1, s[CURRENT + i], s[TO_BACK + i], s[DOWN + i]))
}

// Whether every honest peer has backed a period: 9, at a clear.
ghost use Rattle.std.specs.Prelude.{◌≡◌};
ghost use Rattle.rules.specs.Backed.{unbacked};
ghost use Rattle.state.specs.Contents.{Canon};
ghost use Rattle.view.specs.View.{no_clash, table_of, state_on};

use header::{Head, is_honest};
use state::numbers::to_back_of;

// Some honest peer has yet to back period p.
pub fn unbacked(s: &[u8], h: Head, p: u8) -> bool
    requires { Canon s.now }
    ensures { result ≡ unbacked (table_of h no_clash) (state_on s.now).to_back p }
{
    (0..h.n).any(|k| is_honest(h, k + 1) && to_back_of(s, k + 1) <= p)
}

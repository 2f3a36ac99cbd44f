// Receipt shares that a peer gave before: 17.
ghost use Rattle.std.specs.Prelude.{◌≡◌};
ghost use Rattle.rules.specs.Rules.{given_before};
ghost use Rattle.state.specs.declared.Fact.TheVariants.{Shared};
ghost use Rattle.state.specs.Contents.{Canon, has_on, current_on};
ghost use Rattle.view.specs.View.{state_on};

use base::is_member;
use sets::whole::sharers_of;
use state::numbers::current_of;

// Whether peer j gave its receipt share on item x in a period before p.
fn given_before(s: &[u8], j: u8, p: u8, x: u8) -> bool
    requires { Canon s.now }
    ensures { result ≡ given_before ((state_on s.now).shared j) p x }
{
    (0..p).any(|q| is_member(sharers_of(s, q, x).0, j))
}

// Peer j gave its receipt share on item x in a period before its open one.
pub fn has_given(s: &[u8], j: u8, x: u8) -> bool
    requires { Canon s.now }
    ensures { result ≡ given_before ((state_on s.now).shared j) (current_on s.now j) x }
{
    given_before(s, j, current_of(s, j), x)
}

// Whether fewer than t peers signed or gave a receipt share: 12.
ghost use Rattle.std.specs.Prelude.{◌≡◌, not};
ghost use Rattle.state.specs.declared.Fact.TheVariants.{Shared, Known};
ghost use Rattle.state.specs.Contents.{has_on, current_on};
ghost use Rattle.view.specs.View.{quorum_of};
ghost use Rattle.view.specs.Ready.{Ready};

use header::Head;
use header::quorum::reaches;
use sets::whole::{sharers_of, signers_of};
use state::numbers::current_of;

// Peer j's database has fewer than t signers on item x in its open period.
pub fn few_signers(s: &[u8], h: Head, j: u8, x: u8) -> bool
    requires { Ready h s.now }
    ensures { result ≡ not (quorum_of h (λ k. has_on s.now (Known j (current_on s.now j) x k))) }
{
    !reaches(h, signers_of(s, j, current_of(s, j), x))
}

// Fewer than t receipt shares on item x in period p are outside.
pub fn few_sharers(s: &[u8], h: Head, p: u8, x: u8) -> bool
    requires { Ready h s.now }
    ensures { result ≡ not (quorum_of h (λ k. has_on s.now (Shared k p x))) }
{
    !reaches(h, sharers_of(s, p, x))
}

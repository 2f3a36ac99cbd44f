// Receipt shares: 17 and 12.
ghost use Rattle.std.specs.Prelude.{◌≡◌, not};
ghost use Rattle.rules.specs.Table.{quorum};
ghost use Rattle.rules.specs.Rules.{given_before};
ghost use Rattle.view.specs.View.{no_clash, table_of};
ghost use Rattle.field_state.specs.Holding.{box_of, Canon};
ghost use Rattle.field_state.specs.Ready.{Ready};

use field_state::part::{current, gave, signers_of};
use header::Head;
use header::quorum::reaches;

// A receipt share on item x was given in a period before p.
fn given_before(s: &[u8], p: u8, x: u8) -> bool
    requires { Canon s.now }
    ensures { result ≡ given_before (box_of s.now).gave p x }
{
    (0..p).any(|q| gave(s, q, x))
}

// A receipt share on item x was given in a period before the open one.
pub fn has_given(s: &[u8], x: u8) -> bool
    requires { Canon s.now }
    ensures { result ≡ given_before (box_of s.now).gave (box_of s.now).current x }
{
    given_before(s, current(s), x)
}

// The database has fewer than t signers on item x in the open period.
pub fn few_signers(s: &[u8], h: Head, x: u8) -> bool
    requires { Ready h s.now }
    ensures { result ≡ not (quorum (table_of h no_clash)
        ((box_of s.now).db (box_of s.now).current x)) }
{
    !reaches(h, signers_of(s, current(s), x))
}

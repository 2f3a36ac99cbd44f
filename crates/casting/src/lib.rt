// Steps 1 to 6, from a posted item to its receipt, on a state that is ready.
// Each is judged by a row of tests, in the order of its refusals, then done in place: nothing is copied, and nothing
// validated again.
// It uses the tests of guard to judge, and state to change. It sees no table: of clashes, only the row of the item that
// is handed.
#![tactic(auto, using(view::proofs::Whole::steps), unfolding(rules::specs::Rules::rule, rules::specs::Rules::answer, base::specs::Refusals::first, view::specs::Effect::effect_on))]

ghost use Rattle.base.specs.Refusals.{answer_of};
ghost use Rattle.rules.specs.declared.Step.TheVariants.{Post, Hand, Sign, Take, Share, Receipt};
ghost use Rattle.view.specs.View.{in_row};
ghost use Rattle.view.specs.Ready.{Ready};
ghost use Rattle.view.specs.Stepped.{Stepped, SteppedBy};

use base::refusal::Refusal;
use header::Head;
use state::Fact;
use state::facts::add_fact;
use state::numbers::current_of;

mod judge; // the refusals of each step

// 1, post: item x is posted.
pub fn step_post(s: &mut [u8], h: Head, x: u8) -> Result<(), Refusal>
    requires { Ready h s.old }
    ensures { Stepped h s.old s.new (Post x) (answer_of result) }
{
    judge::judge_post(s, h, x)?;
    add_fact(s, Fact::Posted(x));
    Ok(())
}

// 2, hand: peer j is handed item x, and holds it in its open period.
pub fn step_hand(s: &mut [u8], h: Head, row: u64, j: u8, x: u8) -> Result<(), Refusal>
    requires { Ready h s.old }
    ensures { SteppedBy h (in_row row) s.old s.new (Hand j x) (answer_of result) }
{
    judge::judge_hand(s, h, row, j, x)?;
    let p = current_of(s, j);
    add_fact(s, Fact::Held(j, p, x));
    Ok(())
}

// 3, sign: peer j signs item x, and knows its own signature.
pub fn step_sign(s: &mut [u8], h: Head, j: u8, x: u8) -> Result<(), Refusal>
    requires { Ready h s.old }
    ensures { Stepped h s.old s.new (Sign j x) (answer_of result) }
{
    judge::judge_sign(s, h, j, x)?;
    let p = current_of(s, j);
    add_fact(s, Fact::Signed(j, p, x));
    add_fact(s, Fact::Known(j, p, x, j));
    Ok(())
}

// 4, take: peer j takes peer k's signature on item x in period p.
pub fn step_take(s: &mut [u8], h: Head, j: u8, k: u8, p: u8, x: u8) -> Result<(), Refusal>
    requires { Ready h s.old }
    ensures { Stepped h s.old s.new (Take j k p x) (answer_of result) }
{
    judge::judge_take(s, h, j, k, p, x)?;
    add_fact(s, Fact::Known(j, p, x, k));
    Ok(())
}

// 5, share: peer j gives its receipt share on item x.
pub fn step_share(s: &mut [u8], h: Head, j: u8, x: u8) -> Result<(), Refusal>
    requires { Ready h s.old }
    ensures { Stepped h s.old s.new (Share j x) (answer_of result) }
{
    judge::judge_share(s, h, j, x)?;
    let p = current_of(s, j);
    add_fact(s, Fact::Shared(j, p, x));
    Ok(())
}

// 6, receipt: t receipt shares on item x in period p make a receipt.
pub fn step_receipt(s: &mut [u8], h: Head, p: u8, x: u8) -> Result<(), Refusal>
    requires { Ready h s.old }
    ensures { Stepped h s.old s.new (Receipt p x) (answer_of result) }
{
    judge::judge_receipt(s, h, p, x)?;
    add_fact(s, Fact::Receipted(p, x));
    Ok(())
}

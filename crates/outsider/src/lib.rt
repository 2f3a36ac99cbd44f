// Steps 13 to 19, what the outsider does, peers that go down and come up, and the clearing of the bag, on a state that
// is ready.
// Each is judged by a row of tests, in the order of its refusals, then done in place: nothing is copied, and nothing
// validated again.
// It uses the tests of guard and bag_guard to judge, and bag, clearing and state to change.
#![tactic(auto, using(view::proofs::Whole::steps), unfolding(rules::specs::Rules::rule, rules::specs::Rules::answer, base::specs::Refusals::first, view::specs::Effect::effect_on))]

ghost use Rattle.base.specs.Refusals.{answer_of};
ghost use Rattle.rules.specs.declared.Step.TheVariants.{FalseSignature, FalseShare, FalseHash, FalseBacking, Down, Up, ClearHashes};
ghost use Rattle.view.specs.Ready.{Ready};
ghost use Rattle.view.specs.Stepped.{Stepped};

use bag::enter;
use base::refusal::Refusal;
use clearing::clear_hashes;
use header::Head;
use rules::Entry;
use state::facts::add_fact;
use state::numbers::set_value;
use state::{Fact, Number};

mod judge; // the refusals of each step

// 13: the outsider makes dishonest peer j's signature on item x in period p.
pub fn step_false_signature(s: &mut [u8], h: Head, j: u8, p: u8, x: u8) -> Result<(), Refusal>
    requires { Ready h s.old }
    ensures { Stepped h s.old s.new (FalseSignature j p x) (answer_of result) }
{
    judge::judge_false_fact(s, h, j, p, x)?;
    add_fact(s, Fact::Signed(j, p, x));
    Ok(())
}

// 14: the outsider makes dishonest peer j's receipt share on item x in period p.
pub fn step_false_share(s: &mut [u8], h: Head, j: u8, p: u8, x: u8) -> Result<(), Refusal>
    requires { Ready h s.old }
    ensures { Stepped h s.old s.new (FalseShare j p x) (answer_of result) }
{
    judge::judge_false_fact(s, h, j, p, x)?;
    add_fact(s, Fact::Shared(j, p, x));
    Ok(())
}

// 15: the outsider makes dishonest peer j's hash of a board in period p.
pub fn step_false_hash(s: &mut [u8], h: Head, j: u8, p: u8, board: u64) -> Result<(), Refusal>
    requires { Ready h s.old }
    ensures { Stepped h s.old s.new (FalseHash j p board) (answer_of result) }
{
    let x = Entry::Hash(j, p, board);
    judge::judge_false_entry(s, h, j, p, board, x)?;
    enter(s, x);
    Ok(())
}

// 16: the outsider makes dishonest peer j's backing of a board in period p.
pub fn step_false_backing(s: &mut [u8], h: Head, j: u8, p: u8, board: u64) -> Result<(), Refusal>
    requires { Ready h s.old }
    ensures { Stepped h s.old s.new (FalseBacking j p board) (answer_of result) }
{
    let x = Entry::Backing(j, p, board);
    judge::judge_false_entry(s, h, j, p, board, x)?;
    enter(s, x);
    Ok(())
}

// 17, down: peer j goes down.
pub fn step_down(s: &mut [u8], h: Head, j: u8) -> Result<(), Refusal>
    requires { Ready h s.old }
    ensures { Stepped h s.old s.new (Down j) (answer_of result) }
{
    judge::judge_down(s, h, j)?;
    set_value(s, Number::DownOf(j), 1);
    Ok(())
}

// 18, up: peer j comes up.
pub fn step_up(s: &mut [u8], h: Head, j: u8) -> Result<(), Refusal>
    requires { Ready h s.old }
    ensures { Stepped h s.old s.new (Up j) (answer_of result) }
{
    judge::judge_down(s, h, j)?;
    set_value(s, Number::DownOf(j), 0);
    Ok(())
}

// 19, clear: the hashes of period p leave the bag.
pub fn step_clear(s: &mut [u8], h: Head, p: u8) -> Result<(), Refusal>
    requires { Ready h s.old }
    ensures { Stepped h s.old s.new (ClearHashes p) (answer_of result) }
{
    judge::judge_clear(s, h, p)?;
    clear_hashes(s, p);
    Ok(())
}

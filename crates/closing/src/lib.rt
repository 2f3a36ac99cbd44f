// Steps 7 to 12, from the close of a period to its board, on a state that is ready.
// Each is judged by a row of tests, in the order of its refusals, then done in place: nothing is copied, and nothing
// validated again.
// It uses the tests of guard and bag_guard to judge, and counters, sets, bag and state to change.
#![tactic(auto, using(view::proofs::Whole::steps), unfolding(rules::specs::Rules::rule, rules::specs::Rules::answer, base::specs::Refusals::first, view::specs::Effect::effect_on))]

ghost use Rattle.base.specs.Refusals.{answer_of};
ghost use Rattle.rules.specs.declared.Step.TheVariants.{Close, Fetch, SendHash, Hear, Back, Publish};
ghost use Rattle.view.specs.Ready.{Ready};
ghost use Rattle.view.specs.Stepped.{Stepped};

use crate::raise::{raise_current, raise_to_back};
use bag::enter;
use bag_guard::entry::board_named;
use base::refusal::Refusal;
use header::Head;
use rules::Entry;
use state::Fact;
use state::facts::add_fact;
use state::numbers::to_back_of;

mod judge; // the refusals of each step
mod raise; // a counter raised

// 7, close: peer j closes its open period.
pub fn step_close(s: &mut [u8], h: Head, j: u8) -> Result<(), Refusal>
    requires { Ready h s.old }
    ensures { Stepped h s.old s.new (Close j) (answer_of result) }
{
    judge::judge_close(s, h, j)?;
    raise_current(s, j);
    Ok(())
}

// 8, fetch: peer j adds peer k's database of period p to its own.
pub fn step_fetch(s: &mut [u8], h: Head, j: u8, k: u8, p: u8) -> Result<(), Refusal>
    requires { Ready h s.old }
    ensures { Stepped h s.old s.new (Fetch j k p) (answer_of result) }
{
    judge::judge_fetch(s, h, j, k, p)?;
    sets::database::fetch(s, j, k, p);
    Ok(())
}

// 9, hash: peer j sends out the hash of its board of period p.
pub fn step_send_hash(s: &mut [u8], h: Head, j: u8, p: u8) -> Result<(), Refusal>
    requires { Ready h s.old }
    ensures { Stepped h s.old s.new (SendHash j p) (answer_of result) }
{
    let board = bag_guard::boards::board_by(s, h, j, p);
    judge::judge_send_hash(s, h, j, p, board)?;
    enter(s, Entry::Hash(j, p, board));
    Ok(())
}

// 10, hear: peer j hears the hash of entry e.
pub fn step_hear(s: &mut [u8], h: Head, j: u8, e: u8) -> Result<(), Refusal>
    requires { Ready h s.old }
    ensures { Stepped h s.old s.new (Hear j e) (answer_of result) }
{
    judge::judge_hear(s, h, j, e)?;
    add_fact(s, Fact::Heard(j, e));
    Ok(())
}

// 11, back: peer j backs its board of the next period that it is to back.
pub fn step_back(s: &mut [u8], h: Head, j: u8) -> Result<(), Refusal>
    requires { Ready h s.old }
    ensures { Stepped h s.old s.new (Back j) (answer_of result) }
{
    let c = to_back_of(s, j);
    let board = bag_guard::boards::board_by(s, h, j, c);
    judge::judge_back(s, h, j, c, board)?;
    enter(s, Entry::Backing(j, c, board));
    raise_to_back(s, j);
    Ok(())
}

// 12, publish: the board that the backing of entry e names is published.
pub fn step_publish(s: &mut [u8], h: Head, e: u8) -> Result<(), Refusal>
    requires { Ready h s.old }
    ensures { Stepped h s.old s.new (Publish e) (answer_of result) }
{
    judge::judge_publish(s, h, e)?;
    let x = board_named(s, e);
    enter(s, x);
    Ok(())
}

// The engine: fresh and step, for any bytes. The table and the state are validated once for each call; the inner step
// re-validates nothing.
// It uses header to read the table, ballot to judge it, valid to judge the state, clash for what clashes, form to read
// a step, and casting, closing and outsider to judge and do it.
#![tactic(auto)]

ghost use Rattle.std.specs.Prelude.{◌≡◌, length, replicate};
ghost use Rattle.base.specs.Refusals.{answer_of};
ghost use Rattle.view.specs.Ready.{Ready};
ghost use Rattle.engine.specs.Engine.{Prepared, step_answer, step_bytes, fresh_answer, fresh_bytes};

use ballot::check_table;
use base::refusal::Refusal;
use header::Head;
use state::layout::SIZE;

mod advance; // the inner step, whichever of the nineteen it is

// Writes 0 in every byte.
pub fn clear(s: &mut [u8])
    ensures { s.new ≡ replicate (length s.old) 0 }
{
    s.fill(0);
}

// Makes a state buffer fresh. It answers 1 to 4 for the table, or 14 for the buffer's length; what is refused alters
// nothing.
#[tactic(auto, using(base::proofs::Refusals::refused_ne0, crate::proofs::Calls::fresh_zeros), unfolding(crate::specs::Engine::fresh_answer, crate::specs::Engine::fresh_bytes))]
pub fn fresh(table: &[u8], s: &mut [u8]) -> Result<(), Refusal>
    ensures { (answer_of result ≡ fresh_answer table.now s.old)
        × (s.new ≡ fresh_bytes table.now s.old) }
{
    check_table(table)?;
    if s.len() != SIZE {
        return Err(Refusal::State);
    }
    clear(s);
    Ok(())
}

// A step on a table that was taken, with what was made of it once, and on a state that is ready: nothing is validated
// again.
#[tactic(auto, using(valid::proofs::Ready::ok_of_ready), unfolding(crate::specs::Engine::step_answer, crate::specs::Engine::step_bytes, crate::specs::Engine::leave_on, rules::specs::Rules::reply))]
pub fn run_step(
    table: &[u8],
    s: &mut [u8],
    h: Head,
    rows: &[u64],
    step: &[u8],
) -> Result<(), Refusal>
    requires { Prepared table.now h rows.now × Ready h s.old }
    ensures { (answer_of result ≡ step_answer table.now s.old step.now)
        × (s.new ≡ step_bytes table.now s.old step.now) }
{
    match form::read_step(step) {
        Some(st) => advance::advance(table, s, h, rows, st),
        None => Err(Refusal::Form),
    }
}

// Takes a step, or answers the first refusal that applies; what is refused alters nothing.
#[tactic(auto, using(base::proofs::Refusals::refused_ne0), unfolding(crate::specs::Engine::step_answer, crate::specs::Engine::step_bytes))]
pub fn step(table: &[u8], s: &mut [u8], step: &[u8]) -> Result<(), Refusal>
    ensures { (answer_of result ≡ step_answer table.now s.old step.now)
        × (s.new ≡ step_bytes table.now s.old step.now) }
{
    check_table(table)?;
    let h = header::head_of(table);
    if !valid::state_ok(s, h) {
        return Err(Refusal::State);
    }
    run_step(table, s, h, &[], step)
}

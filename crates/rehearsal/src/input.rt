// The input: where its table ends, the first refusal, and its steps.
ghost use Rattle.std.specs.Prelude.{◌≡◌, ◌≤◌, length};
ghost use Rattle.base.specs.Refusals.{answer_of};
ghost use Rattle.rehearsal.specs.Input.{input_most, table_end, table_in, table_there, input_refusal, step_count, call_at};
ghost use Rattle.rehearsal.specs.Rehearsal.{lent_refusal};

use crate::INPUT_MOST;
use base::refusal::Refusal;
use state::layout::SIZE;

// The bytes of a step.
const STEP_SIZE: usize = 13;

// Where the table ends.
pub fn table_end(input: &[u8]) -> usize
    ensures { result ≡ table_end input.now }
{
    ballot::pairs_of(input).last_end()
}

// The table, as the part of the input that it is.
pub fn table_in(input: &[u8]) -> &[u8]
    ensures { result.now ≡ table_in input.now }
{
    base::part_of(input, 0, table_end(input))
}

// Whether the pairs fit, and the input reaches to the last one's end.
fn table_there(input: &[u8]) -> bool
    ensures { result ≡ table_there input.now }
{
    ballot::pairs_of(input).fit() && table_end(input) <= input.len()
}

// The first refusal that applies, 15 or 1 to 4.
#[tactic(auto, unfolding(crate::specs::Input::input_refusal, ballot::specs::Table::refusal, base::specs::Refusals::first))]
pub fn check_input(input: &[u8]) -> Result<(), Refusal>
    ensures { answer_of result ≡ input_refusal input.now }
{
    if INPUT_MOST < input.len() {
        return Err(Refusal::Input);
    }
    if !header::header_ok(input) {
        return Err(Refusal::Header);
    }
    if !table_there(input) {
        return Err(Refusal::Pairs);
    }
    ballot::check_table(table_in(input))
}

// The first refusal of a rehearsal in a lent state: of the input, then 14 for the state's length.
#[tactic(auto, using(base::proofs::Refusals::refused_ne0), unfolding(crate::specs::Rehearsal::lent_refusal))]
pub fn check_lent(input: &[u8], s: &[u8]) -> Result<(), Refusal>
    ensures { answer_of result ≡ lent_refusal input.now s.now }
{
    check_input(input)?;
    if s.len() != SIZE {
        return Err(Refusal::State);
    }
    Ok(())
}

// How many steps there are: a short tail is one.
pub fn step_count(input: &[u8]) -> usize
    requires input_in_bounds { table_end input.now ≤ length input.now }
    requires input_len_bound { length input.now ≤ input_most }
    ensures { result ≡ step_count input.now }
{
    (input.len() - table_end(input) + (STEP_SIZE - 1)) / STEP_SIZE
}

// The bytes of step k, counted from 0, of an input whose table ends at `start`.
pub fn call_at(input: &[u8], start: usize, k: usize) -> &[u8]
    requires { (start ≡ table_end input.now) × (start ≤ input_most) × (k ≤ input_most) }
    ensures { result.now ≡ call_at input.now k }
{
    base::part_of(input, start + STEP_SIZE * k, STEP_SIZE)
}

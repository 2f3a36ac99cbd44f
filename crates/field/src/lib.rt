// One peer for the field: the box of one honest peer, on bytes.
// It uses field_rules for what it is to do, field_form to do it, field_valid for row 14, ballot for the table. For C the
// crate field_c exports these functions.
#![tactic(auto)]

ghost use Rattle.std.specs.Prelude.{◌≡◌};
ghost use Rattle.base.specs.Refusals.{answer_of};
ghost use Rattle.field_state.specs.Layout.{size};
ghost use Rattle.field.specs.Calls.{message_answer, message_leaves, own_answer, own_leaves, own_sends};

use base::refusal::Refusal;

mod calls; // the two calls

// The length of the field peer's state; a state of zeros is fresh.
pub fn field_state_length() -> usize
    ensures { result ≡ size }
{
    field_state::layout::SIZE
}

// Brings a message to the peer; a refusal alters nothing.
pub fn field_message(
    table: &[u8],
    peer: u8,
    state: &mut [u8],
    message: &[u8],
) -> Result<(), Refusal>
    ensures { (answer_of result ≡ message_answer table.now peer state.old message.now)
        × (state.new ≡ message_leaves table.now peer state.old message.now) }
{
    calls::bring(table, peer, state, message)
}

// Has the peer do a step of its own, and writes what it sends; a refusal alters nothing.
pub fn field_step(
    table: &[u8],
    peer: u8,
    state: &mut [u8],
    step: &[u8],
    sent: &mut [u8],
) -> Result<(), Refusal>
    ensures value { answer_of result ≡ own_answer table.now peer state.old step.now
        sent.old }
    ensures state_after { state.new ≡ own_leaves table.now peer state.old step.now
        sent.old }
    ensures sent_after { sent.new ≡ own_sends table.now peer state.old step.now
        sent.old }
{
    calls::act(table, peer, state, step, sent)
}

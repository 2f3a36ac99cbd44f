// The field peer for C, whose slices are a pointer and a length: `include/field.h` declares these functions.
// Each calls the function of its name in field and promises the same.
#![tactic(auto)]

ghost use Rattle.std.specs.Prelude.{◌≡◌};
ghost use Rattle.field_state.specs.Layout.{size};
ghost use Rattle.field.specs.Calls.{message_answer, message_leaves, own_answer, own_leaves, own_sends};

use base::refusal::answer;

// The length of the field peer's state; a state of zeros is fresh.
#[unsafe(no_mangle)]
pub extern "C" fn field_state_length() -> usize
    ensures { result ≡ size }
{
    field::field_state_length()
}

// Brings a message to the peer; the answer is 0, or the refusal, which alters nothing.
#[unsafe(no_mangle)]
pub extern "C" fn field_message(table: &[u8], peer: u8, state: &mut [u8], message: &[u8]) -> u8
    ensures { (result ≡ message_answer table.now peer state.old message.now)
        × (state.new ≡ message_leaves table.now peer state.old message.now) }
{
    answer(field::field_message(table, peer, state, message))
}

// Has the peer do a step of its own, and writes what it sends; the answer is 0, or the refusal, which alters nothing.
#[unsafe(no_mangle)]
pub extern "C" fn field_step(
    table: &[u8],
    peer: u8,
    state: &mut [u8],
    step: &[u8],
    sent: &mut [u8],
) -> u8
    ensures value { result ≡ own_answer table.now peer state.old step.now
        sent.old }
    ensures state_after { state.new ≡ own_leaves table.now peer state.old step.now
        sent.old }
    ensures sent_after { sent.new ≡ own_sends table.now peer state.old step.now
        sent.old }
{
    answer(field::field_step(table, peer, state, step, sent))
}

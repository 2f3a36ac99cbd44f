// The two calls, for any bytes: the table and the state are validated once for each.
ghost use Rattle.std.specs.Prelude.{◌≡◌};
ghost use Rattle.base.specs.Refusals.{answer_of};
ghost use Rattle.field.specs.Calls.{message_answer, message_leaves, own_answer, own_leaves, own_sends};

use ballot::check_table;
use base::refusal::Refusal;
use field_form::read;
use field_valid::box_ok;

// What is brought to the peer.
pub fn bring(table: &[u8], j: u8, s: &mut [u8], message: &[u8]) -> Result<(), Refusal>
    ensures { (answer_of result ≡ message_answer table.now j s.old message.now)
        × (s.new ≡ message_leaves table.now j s.old message.now) }
{
    check_table(table)?;
    let h = header::head_of(table);
    if !box_ok(s, h) {
        return Err(Refusal::State);
    }
    read::handle_message(table, s, h, j, message)
}

// What the peer does by itself.
pub fn act(table: &[u8], j: u8, s: &mut [u8], step: &[u8], sent: &mut [u8]) -> Result<(), Refusal>
    ensures value { answer_of result ≡ own_answer table.now j s.old step.now sent.old }
    ensures s_after { s.new ≡ own_leaves table.now j s.old step.now
        sent.old }
    ensures sent_after { sent.new ≡ own_sends table.now j s.old step.now
        sent.old }
{
    check_table(table)?;
    let h = header::head_of(table);
    if !box_ok(s, h) {
        return Err(Refusal::State);
    }
    if sent.len() != 13 {
        return Err(Refusal::State);
    }
    read::handle_step(s, h, j, step, sent)
}

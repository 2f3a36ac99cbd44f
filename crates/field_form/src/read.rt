// A message or a step, read from its bytes and done, if they are formed and name the peer: else 5, or 6.
ghost use Rattle.std.specs.Prelude.{◌≡◌, length};
ghost use Rattle.base.specs.Refusals.{answer_of};
ghost use Rattle.header.specs.Header.{items_of};
ghost use Rattle.clash.specs.Clash.{clash_in};
ghost use Rattle.view.specs.View.{no_clash, table_of};
ghost use Rattle.field_rules.specs.MessageBytes.{brought, choose, own, read_message, read_step, rows_brought};
ghost use Rattle.field_state.specs.Ready.{Ready};
ghost use Rattle.field_form.specs.Handling.{address, HandlesReading, SendsReading};

use base::refusal::Refusal;
use field_steps::step;
use form::{all_zero, fields_of};
use header::Head;
use rules::Fields;

// How many bytes a fetch has.
const FETCH_SIZE: usize = 141;

// Bytes whose unused fields are 0, if ok, and that name peer i, are for peer j.
#[tactic(auto, unfolding(crate::specs::Handling::address))]
fn addressed(ok: bool, i: u8, j: u8) -> Result<(), Refusal>
    ensures { answer_of result ≡ address ok i j }
{
    if !ok {
        return Err(Refusal::Form);
    }
    if i != j {
        return Err(Refusal::Name);
    }
    Ok(())
}

// A message of 13 bytes, of its fields.
fn message_op(table: &[u8], s: &mut [u8], h: Head, j: u8, f: Fields) -> Result<(), Refusal>
    requires { Ready h s.old × (h.items ≡ items_of table.now) }
    ensures { HandlesReading (table_of h (clash_in table.now)) j s.old s.new
        (choose f.op (brought f.peer f.other f.period f.item f.board)) (answer_of result) }
{
    let Fields {
        op,
        peer: i,
        other: k,
        period: p,
        item: x,
        board,
    } = f;
    match op {
        2 => {
            addressed(all_zero(k, p, 0, board), i, j)?;
            step::step_hand(s, h, clash::rows::clash_mask(table, x), j, x)
        }
        4 => {
            addressed(all_zero(0, 0, 0, board), i, j)?;
            step::step_take(s, h, j, k, p, x)
        }
        10 => {
            addressed(all_zero(x, 0, 0, 0), i, j)?;
            step::step_hear(s, h, j, k, p, board)
        }
        _ => Err(Refusal::Form),
    }
}

// A fetch, of its fields, and with the rows that it brings.
fn fetch_op(s: &mut [u8], h: Head, j: u8, f: Fields, message: &[u8]) -> Result<(), Refusal>
    requires { Ready h s.old }
    ensures { HandlesReading (table_of h no_clash) j s.old s.new
        (choose f.op (rows_brought f.peer f.other f.period f.item f.board message.now)) (answer_of result) }
{
    match f.op {
        8 => {
            addressed(all_zero(f.item, 0, 0, f.board), f.peer, j)?;
            step::step_fetch(s, h, j, f.other, f.period, message)
        }
        _ => Err(Refusal::Form),
    }
}

// A step of the peer's own, of its fields.
fn step_op(s: &mut [u8], h: Head, j: u8, f: Fields, sent: &mut [u8]) -> Result<(), Refusal>
    requires { Ready h s.old × (length sent.old ≡ 13) }
    ensures { SendsReading (table_of h no_clash) j s.old s.new
        (choose f.op (own f.peer f.other f.period f.item f.board)) sent.old sent.new (answer_of result) }
{
    let Fields {
        op,
        peer: i,
        other: k,
        period: p,
        item: x,
        board,
    } = f;
    match op {
        3 => {
            addressed(all_zero(k, p, 0, board), i, j)?;
            step::step_sign(s, h, j, x, sent)
        }
        5 => {
            addressed(all_zero(k, p, 0, board), i, j)?;
            step::step_share(s, h, j, x, sent)
        }
        7 => {
            addressed(all_zero(k, p, x, board), i, j)?;
            step::step_close(s, h, j, sent)
        }
        9 => {
            addressed(all_zero(k, x, 0, board), i, j)?;
            step::step_hash(s, h, j, p, sent)
        }
        11 => {
            addressed(all_zero(k, p, x, board), i, j)?;
            step::step_back(s, h, j, sent)
        }
        17 => {
            addressed(all_zero(k, p, x, board), i, j)?;
            step::step_down(s, h, j, sent)
        }
        18 => {
            addressed(all_zero(k, p, x, board), i, j)?;
            step::step_up(s, h, j, sent)
        }
        _ => Err(Refusal::Form),
    }
}

// The message that the bytes say.
pub fn handle_message(
    table: &[u8],
    s: &mut [u8],
    h: Head,
    j: u8,
    message: &[u8],
) -> Result<(), Refusal>
    requires { Ready h s.old × (h.items ≡ items_of table.now) }
    ensures { HandlesReading (table_of h (clash_in table.now)) j s.old s.new
        (read_message message.now) (answer_of result) }
{
    match message.len() {
        13 => message_op(table, s, h, j, fields_of(message)),
        FETCH_SIZE => fetch_op(s, h, j, fields_of(message), message),
        _ => Err(Refusal::Form),
    }
}

// The step that the bytes say.
pub fn handle_step(
    s: &mut [u8],
    h: Head,
    j: u8,
    step: &[u8],
    sent: &mut [u8],
) -> Result<(), Refusal>
    requires { Ready h s.old × (length sent.old ≡ 13) }
    ensures { SendsReading (table_of h no_clash) j s.old s.new (read_step step.now)
        sent.old sent.new (answer_of result) }
{
    if step.len() != 13 {
        return Err(Refusal::Form);
    }
    step_op(s, h, j, fields_of(step), sent)
}

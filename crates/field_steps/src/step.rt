// Messages 2, 4, 8 and 10 and the peer's own steps 3, 5, 7, 9, 11, 17 and 18, on a box that is ready: each is judged,
// then done in place, and what it sends is written.
#![tactic(auto, unfolding(field_rules::specs::Rules::field_rule, field_rules::specs::Rules::handle_answer, base::specs::Refusals::first))]

ghost use Rattle.std.specs.Prelude.{◌≡◌, length};
ghost use Rattle.base.specs.Refusals.{answer_of};
ghost use Rattle.view.specs.View.{in_row};
ghost use Rattle.field_rules.specs.Message.{handed, taken, fetched, signs, shares, closes, hashes, told, backs, falls, rises};
ghost use Rattle.field_rules.specs.MessageBytes.{rows_in};
ghost use Rattle.field_state.specs.Ready.{Ready, Handles, HandlesBy};
ghost use Rattle.field_steps.specs.Sends.{Sends};

use crate::send::send;
use base::refusal::Refusal;
use field_guard::board::board_of;
use field_guard::fetch::add_rows;
use field_judges::judge;
use field_state::change;
use field_state::heard::{SignedHash, hear};
use field_state::part::{current, to_back};
use header::Head;
use rules::Fields;

// What stands for nothing sent.
const NOTHING: Fields = Fields {
    op: 0,
    peer: 0,
    other: 0,
    period: 0,
    item: 0,
    board: 0,
};

// 4, take: peer k's signature on item x in period p.
pub fn step_take(s: &mut [u8], h: Head, j: u8, k: u8, p: u8, x: u8) -> Result<(), Refusal>
    requires { Ready h s.old }
    ensures { Handles h j s.old s.new (taken k p x) (answer_of result) }
{
    judge::judge_take(s, h, j, k, p, x)?;
    change::know(s, p, x, k);
    Ok(())
}

// 2, hand: item x, whose row of clashes is given.
pub fn step_hand(s: &mut [u8], h: Head, row: u64, j: u8, x: u8) -> Result<(), Refusal>
    requires { Ready h s.old }
    ensures { HandlesBy h (in_row row) j s.old s.new (handed x) (answer_of result) }
{
    judge::judge_hand(s, h, row, j, x)?;
    let p = current(s);
    change::hold(s, p, x);
    Ok(())
}

// 3, sign: item x.
pub fn step_sign(s: &mut [u8], h: Head, j: u8, x: u8, sent: &mut [u8]) -> Result<(), Refusal>
    requires { Ready h s.old × (length sent.old ≡ 13) }
    ensures { Sends h j s.old s.new (signs x) sent.old sent.new (answer_of result) }
{
    judge::judge_sign(s, h, j, x)?;
    let p = current(s);
    change::know(s, p, x, j);
    let signature = Fields {
        op: 3,
        peer: j,
        period: p,
        item: x,
        ..NOTHING
    };
    send(sent, signature);
    Ok(())
}

// 5, share: item x.
pub fn step_share(s: &mut [u8], h: Head, j: u8, x: u8, sent: &mut [u8]) -> Result<(), Refusal>
    requires { Ready h s.old × (length sent.old ≡ 13) }
    ensures { Sends h j s.old s.new (shares x) sent.old sent.new (answer_of result) }
{
    judge::judge_share(s, h, j, x)?;
    let p = current(s);
    change::give(s, p, x);
    let share = Fields {
        op: 5,
        peer: j,
        period: p,
        item: x,
        ..NOTHING
    };
    send(sent, share);
    Ok(())
}

// 7, close.
pub fn step_close(s: &mut [u8], h: Head, j: u8, sent: &mut [u8]) -> Result<(), Refusal>
    requires { Ready h s.old × (length sent.old ≡ 13) }
    ensures { Sends h j s.old s.new closes sent.old sent.new (answer_of result) }
{
    judge::judge_close(s, h, j)?;
    change::raise_current(s);
    send(sent, NOTHING);
    Ok(())
}

// 9, hash: of period p.
pub fn step_hash(s: &mut [u8], h: Head, j: u8, p: u8, sent: &mut [u8]) -> Result<(), Refusal>
    requires { Ready h s.old × (length sent.old ≡ 13) }
    ensures { Sends h j s.old s.new (hashes p) sent.old sent.new (answer_of result) }
{
    judge::judge_hash(s, h, j, p)?;
    let board = board_of(s, h, p);
    let hash = Fields {
        op: 9,
        peer: j,
        period: p,
        board,
        ..NOTHING
    };
    send(sent, hash);
    Ok(())
}

// 17, down.
pub fn step_down(s: &mut [u8], h: Head, j: u8, sent: &mut [u8]) -> Result<(), Refusal>
    requires { Ready h s.old × (length sent.old ≡ 13) }
    ensures { Sends h j s.old s.new falls sent.old sent.new (answer_of result) }
{
    judge::judge_down(s, h, j)?;
    change::set_down(s, true);
    send(sent, NOTHING);
    Ok(())
}

// 18, up.
pub fn step_up(s: &mut [u8], h: Head, j: u8, sent: &mut [u8]) -> Result<(), Refusal>
    requires { Ready h s.old × (length sent.old ≡ 13) }
    ensures { Sends h j s.old s.new rises sent.old sent.new (answer_of result) }
{
    judge::judge_down(s, h, j)?;
    change::set_down(s, false);
    send(sent, NOTHING);
    Ok(())
}

// 10, hear: the hash of signer k, period p and board.
pub fn step_hear(s: &mut [u8], h: Head, j: u8, k: u8, p: u8, board: u64) -> Result<(), Refusal>
    requires { Ready h s.old }
    ensures { Handles h j s.old s.new (told k p board) (answer_of result) }
{
    judge::judge_hear(s, h, j, k, p, board)?;
    hear(
        s,
        SignedHash {
            signer: k,
            period: p,
            board,
        },
    );
    Ok(())
}

// 11, back.
pub fn step_back(s: &mut [u8], h: Head, j: u8, sent: &mut [u8]) -> Result<(), Refusal>
    requires { Ready h s.old × (length sent.old ≡ 13) }
    ensures { Sends h j s.old s.new backs sent.old sent.new (answer_of result) }
{
    let c = to_back(s);
    let board = board_of(s, h, c);
    judge::judge_back(s, h, j, c, board)?;
    change::raise_to_back(s);
    let backing = Fields {
        op: 11,
        peer: j,
        period: c,
        board,
        ..NOTHING
    };
    send(sent, backing);
    Ok(())
}

// 8, fetch: peer k's database of period p, as the message brings it.
pub fn step_fetch(s: &mut [u8], h: Head, j: u8, k: u8, p: u8, message: &[u8]) -> Result<(), Refusal>
    requires { Ready h s.old }
    ensures { Handles h j s.old s.new (fetched k p (rows_in message.now)) (answer_of result) }
{
    judge::judge_fetch(s, h, j, k, p, message)?;
    add_rows(s, p, message);
    Ok(())
}

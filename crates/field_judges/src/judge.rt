// For each message its refusals, in the order in which they are judged: j is the peer whose box it is.
#![tactic(auto, unfolding(field_rules::specs::Rules::field_rule, field_rules::specs::Rules::handle_answer, base::specs::Refusals::first))]

ghost use Rattle.std.specs.Prelude.{◌≡◌};
ghost use Rattle.base.specs.Refusals.{answer_of};
ghost use Rattle.view.specs.View.{no_clash, in_row, table_of};
ghost use Rattle.field_state.specs.Holding.{box_of};
ghost use Rattle.field_rules.specs.Message.{handed, taken, fetched, signs, shares, closes, hashes, told, backs, falls, rises};
ghost use Rattle.field_rules.specs.Rules.{own_board};
ghost use Rattle.field_rules.specs.MessageBytes.{rows_in};
ghost use Rattle.field_state.specs.Ready.{Ready, answer_by, answer_on};

use base::refusal::Refusal;
use field_guard::fetch::stray_rows;
use field_guard::held::{holds_clash, not_held};
use field_guard::periods::{all_backed, beyond, none_open, not_closed};
use field_guard::shares::{few_signers, has_given};
use field_guard::store::{few_heard, no_room};
use field_state::heard::SignedHash;
use field_state::part::is_down;
use guard::names::{no_board, no_item, no_peer, no_period, not_honest};
use header::Head;

// 4, take: peer k's signature on item x in period p.
pub fn judge_take(s: &[u8], h: Head, j: u8, k: u8, p: u8, x: u8) -> Result<(), Refusal>
    requires { Ready h s.now }
    ensures { answer_of result ≡ answer_on h j s.now (taken k p x) }
{
    if no_peer(h, j) {
        return Err(Refusal::Name);
    }
    if not_honest(h, j) {
        return Err(Refusal::Role);
    }
    if no_peer(h, k) {
        return Err(Refusal::Name);
    }
    if no_period(h, p) {
        return Err(Refusal::Name);
    }
    if no_item(h, x) {
        return Err(Refusal::Name);
    }
    if is_down(s) {
        return Err(Refusal::Down);
    }
    if beyond(s, p) {
        return Err(Refusal::Period);
    }
    Ok(())
}

// 3, sign: item x.
pub fn judge_sign(s: &[u8], h: Head, j: u8, x: u8) -> Result<(), Refusal>
    requires { Ready h s.now }
    ensures { answer_of result ≡ answer_on h j s.now (signs x) }
{
    if no_peer(h, j) {
        return Err(Refusal::Name);
    }
    if not_honest(h, j) {
        return Err(Refusal::Role);
    }
    if no_item(h, x) {
        return Err(Refusal::Name);
    }
    if is_down(s) {
        return Err(Refusal::Down);
    }
    if none_open(s, h) {
        return Err(Refusal::Period);
    }
    if not_held(s, x) {
        return Err(Refusal::Unknown);
    }
    Ok(())
}

// 2, hand: item x, whose row of clashes is given.
pub fn judge_hand(s: &[u8], h: Head, row: u64, j: u8, x: u8) -> Result<(), Refusal>
    requires { Ready h s.now }
    ensures { answer_of result ≡ answer_by h (in_row row) j s.now (handed x) }
{
    if no_peer(h, j) {
        return Err(Refusal::Name);
    }
    if not_honest(h, j) {
        return Err(Refusal::Role);
    }
    if no_item(h, x) {
        return Err(Refusal::Name);
    }
    if is_down(s) {
        return Err(Refusal::Down);
    }
    if none_open(s, h) {
        return Err(Refusal::Period);
    }
    if holds_clash(s, h, row, x) {
        return Err(Refusal::Clash);
    }
    Ok(())
}

// 5, share: item x.
pub fn judge_share(s: &[u8], h: Head, j: u8, x: u8) -> Result<(), Refusal>
    requires { Ready h s.now }
    ensures { answer_of result ≡ answer_on h j s.now (shares x) }
{
    if no_peer(h, j) {
        return Err(Refusal::Name);
    }
    if not_honest(h, j) {
        return Err(Refusal::Role);
    }
    if no_item(h, x) {
        return Err(Refusal::Name);
    }
    if is_down(s) {
        return Err(Refusal::Down);
    }
    if none_open(s, h) {
        return Err(Refusal::Period);
    }
    if has_given(s, x) {
        return Err(Refusal::Given);
    }
    if few_signers(s, h, x) {
        return Err(Refusal::Short);
    }
    Ok(())
}

// 7, close.
pub fn judge_close(s: &[u8], h: Head, j: u8) -> Result<(), Refusal>
    requires { Ready h s.now }
    ensures { answer_of result ≡ answer_on h j s.now closes }
{
    if no_peer(h, j) {
        return Err(Refusal::Name);
    }
    if not_honest(h, j) {
        return Err(Refusal::Role);
    }
    if is_down(s) {
        return Err(Refusal::Down);
    }
    if none_open(s, h) {
        return Err(Refusal::Period);
    }
    Ok(())
}

// 9, hash: of period p.
pub fn judge_hash(s: &[u8], h: Head, j: u8, p: u8) -> Result<(), Refusal>
    requires { Ready h s.now }
    ensures { answer_of result ≡ answer_on h j s.now (hashes p) }
{
    if no_peer(h, j) {
        return Err(Refusal::Name);
    }
    if not_honest(h, j) {
        return Err(Refusal::Role);
    }
    if no_period(h, p) {
        return Err(Refusal::Name);
    }
    if is_down(s) {
        return Err(Refusal::Down);
    }
    if not_closed(s, p) {
        return Err(Refusal::Period);
    }
    Ok(())
}

// 17, down, and 18, up.
pub fn judge_down(s: &[u8], h: Head, j: u8) -> Result<(), Refusal>
    requires { Ready h s.now }
    ensures { (answer_of result ≡ answer_on h j s.now falls) × (answer_of result ≡ answer_on h j s.now rises) }
{
    if no_peer(h, j) {
        return Err(Refusal::Name);
    }
    if not_honest(h, j) {
        return Err(Refusal::Role);
    }
    Ok(())
}

// 10, hear: the hash of signer k, period p and board.
pub fn judge_hear(s: &[u8], h: Head, j: u8, k: u8, p: u8, board: u64) -> Result<(), Refusal>
    requires { Ready h s.now }
    ensures { answer_of result ≡ answer_on h j s.now (told k p board) }
{
    if no_peer(h, j) {
        return Err(Refusal::Name);
    }
    if not_honest(h, j) {
        return Err(Refusal::Role);
    }
    if no_peer(h, k) {
        return Err(Refusal::Name);
    }
    if no_period(h, p) {
        return Err(Refusal::Name);
    }
    if no_board(h, board) {
        return Err(Refusal::Name);
    }
    if is_down(s) {
        return Err(Refusal::Down);
    }
    if not_closed(s, p) {
        return Err(Refusal::Period);
    }
    if no_room(
        s,
        SignedHash {
            signer: k,
            period: p,
            board,
        },
    ) {
        return Err(Refusal::Full);
    }
    Ok(())
}

// 11, back: of period c, whose board the caller has made.
pub fn judge_back(s: &[u8], h: Head, j: u8, c: u8, board: u64) -> Result<(), Refusal>
    requires { Ready h s.now × (c ≡ (box_of s.now).to_back)
        × (board ≡ own_board (table_of h no_clash) (box_of s.now) (box_of s.now).to_back) }
    ensures { answer_of result ≡ answer_on h j s.now backs }
{
    if no_peer(h, j) {
        return Err(Refusal::Name);
    }
    if not_honest(h, j) {
        return Err(Refusal::Role);
    }
    if is_down(s) {
        return Err(Refusal::Down);
    }
    if all_backed(s) {
        return Err(Refusal::Period);
    }
    if few_heard(s, h, c, board) {
        return Err(Refusal::Short);
    }
    Ok(())
}

// 8, fetch: peer k's database of period p, as the message brings it.
pub fn judge_fetch(s: &[u8], h: Head, j: u8, k: u8, p: u8, message: &[u8]) -> Result<(), Refusal>
    requires { Ready h s.now }
    ensures { answer_of result ≡ answer_on h j s.now (fetched k p (rows_in message.now)) }
{
    if no_peer(h, j) {
        return Err(Refusal::Name);
    }
    if not_honest(h, j) {
        return Err(Refusal::Role);
    }
    if no_peer(h, k) {
        return Err(Refusal::Name);
    }
    if no_period(h, p) {
        return Err(Refusal::Name);
    }
    if stray_rows(message, h) {
        return Err(Refusal::Name);
    }
    if is_down(s) {
        return Err(Refusal::Down);
    }
    if not_closed(s, p) {
        return Err(Refusal::Period);
    }
    Ok(())
}

// Steps 7 to 12: from the close of a period to its board. For each its refusals, in the order in which they are judged.
#![tactic(auto, unfolding(rules::specs::Rules::rule, rules::specs::Rules::answer, base::specs::Refusals::first))]

ghost use Rattle.std.specs.Prelude.{◌≡◌};
ghost use Rattle.base.specs.Refusals.{answer_of};
ghost use Rattle.rules.specs.declared.Step.TheVariants.{Close, Fetch, SendHash, Hear, Back, Publish};
ghost use Rattle.state.specs.Contents.{to_back_on};
ghost use Rattle.view.specs.View.{answer_on, board_on, next_board_on};
ghost use Rattle.view.specs.Ready.{Ready};

use base::refusal::Refusal;
use header::Head;
use rules::Entry;

// 7, close: peer j closes its open period.
pub fn judge_close(s: &[u8], h: Head, j: u8) -> Result<(), Refusal>
    requires { Ready h s.now }
    ensures { answer_of result ≡ answer_on h s.now (Close j) }
{
    if guard::names::no_peer(h, j) {
        return Err(Refusal::Name);
    }
    if guard::names::not_honest(h, j) {
        return Err(Refusal::Role);
    }
    if guard::periods::is_down(s, j) {
        return Err(Refusal::Down);
    }
    if guard::periods::none_open(s, h, j) {
        return Err(Refusal::Period);
    }
    Ok(())
}

// 8, fetch: peer j adds peer k's database of period p to its own.
pub fn judge_fetch(s: &[u8], h: Head, j: u8, k: u8, p: u8) -> Result<(), Refusal>
    requires { Ready h s.now }
    ensures { answer_of result ≡ answer_on h s.now (Fetch j k p) }
{
    if guard::names::no_peer(h, j) {
        return Err(Refusal::Name);
    }
    if guard::names::no_peer(h, k) {
        return Err(Refusal::Name);
    }
    if guard::names::no_period(h, p) {
        return Err(Refusal::Name);
    }
    if guard::names::not_honest(h, j) {
        return Err(Refusal::Role);
    }
    if guard::names::not_honest(h, k) {
        return Err(Refusal::Role);
    }
    if guard::periods::is_down(s, j) {
        return Err(Refusal::Down);
    }
    if guard::periods::is_down(s, k) {
        return Err(Refusal::Down);
    }
    if guard::periods::not_closed(s, j, p) {
        return Err(Refusal::Period);
    }
    if guard::periods::not_closed(s, k, p) {
        return Err(Refusal::Period);
    }
    Ok(())
}

// 9, hash: peer j sends out the hash of its board of period p.
pub fn judge_send_hash(s: &[u8], h: Head, j: u8, p: u8, board: u64) -> Result<(), Refusal>
    requires { Ready h s.now × (board ≡ board_on h s.now j p) }
    ensures { answer_of result ≡ answer_on h s.now (SendHash j p) }
{
    if guard::names::no_peer(h, j) {
        return Err(Refusal::Name);
    }
    if guard::names::no_period(h, p) {
        return Err(Refusal::Name);
    }
    if guard::names::not_honest(h, j) {
        return Err(Refusal::Role);
    }
    if guard::periods::is_down(s, j) {
        return Err(Refusal::Down);
    }
    if guard::periods::not_closed(s, j, p) {
        return Err(Refusal::Period);
    }
    if bag_guard::entry::is_full(s, Entry::Hash(j, p, board)) {
        return Err(Refusal::Full);
    }
    Ok(())
}

// 10, hear: peer j hears the hash of entry e.
pub fn judge_hear(s: &[u8], h: Head, j: u8, e: u8) -> Result<(), Refusal>
    requires { Ready h s.now }
    ensures { answer_of result ≡ answer_on h s.now (Hear j e) }
{
    if guard::names::no_peer(h, j) {
        return Err(Refusal::Name);
    }
    if guard::names::not_honest(h, j) {
        return Err(Refusal::Role);
    }
    if guard::periods::is_down(s, j) {
        return Err(Refusal::Down);
    }
    if bag_guard::entry::not_hash(s, e) {
        return Err(Refusal::Unknown);
    }
    if bag_guard::entry::entry_not_closed(s, j, e) {
        return Err(Refusal::Period);
    }
    Ok(())
}

// 11, back: peer j backs its board of the next period that it is to back.
pub fn judge_back(s: &[u8], h: Head, j: u8, c: u8, board: u64) -> Result<(), Refusal>
    requires { Ready h s.now × (c ≡ to_back_on s.now j) × (board ≡ next_board_on h s.now j) }
    ensures { answer_of result ≡ answer_on h s.now (Back j) }
{
    if guard::names::no_peer(h, j) {
        return Err(Refusal::Name);
    }
    if guard::names::not_honest(h, j) {
        return Err(Refusal::Role);
    }
    if guard::periods::is_down(s, j) {
        return Err(Refusal::Down);
    }
    if guard::periods::all_backed(s, j) {
        return Err(Refusal::Period);
    }
    if bag_guard::signers::few_heard(s, h, j, c, board) {
        return Err(Refusal::Short);
    }
    if bag_guard::entry::is_full(s, Entry::Backing(j, c, board)) {
        return Err(Refusal::Full);
    }
    Ok(())
}

// 12, publish: the board that the backing of entry e names is published.
pub fn judge_publish(s: &[u8], h: Head, e: u8) -> Result<(), Refusal>
    requires { Ready h s.now }
    ensures { answer_of result ≡ answer_on h s.now (Publish e) }
{
    if bag_guard::entry::not_backing(s, e) {
        return Err(Refusal::Unknown);
    }
    if bag_guard::boards::few_backers_of(s, h, e) {
        return Err(Refusal::Short);
    }
    if bag_guard::boards::no_room_for_board(s, e) {
        return Err(Refusal::Full);
    }
    Ok(())
}

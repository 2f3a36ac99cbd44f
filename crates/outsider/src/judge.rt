// Steps 13 to 19: what the outsider does, peers that go down and come up, and the clearing of the bag.
// For each its refusals, in the order in which they are judged.
#![tactic(auto, unfolding(rules::specs::Rules::rule, rules::specs::Rules::answer, base::specs::Refusals::first))]

ghost use Rattle.std.specs.Prelude.{◌≡◌};
ghost use Rattle.base.specs.Refusals.{answer_of};
ghost use Rattle.rules.specs.declared.Entry.TheVariants.{Hash, Backing};
ghost use Rattle.rules.specs.declared.Step.TheVariants.{FalseSignature, FalseShare, FalseHash, FalseBacking, Down, Up, ClearHashes};
ghost use Rattle.view.specs.View.{answer_on};
ghost use Rattle.view.specs.Ready.{Ready};

use base::refusal::Refusal;
use header::Head;
use rules::Entry;

// 13 and 14: the outsider makes dishonest peer j's signature, or its receipt share, on item x in period p.
pub fn judge_false_fact(s: &[u8], h: Head, j: u8, p: u8, x: u8) -> Result<(), Refusal>
    requires { Ready h s.now }
    ensures { (answer_of result ≡ answer_on h s.now (FalseSignature j p x))
        × (answer_of result ≡ answer_on h s.now (FalseShare j p x)) }
{
    if guard::names::no_peer(h, j) {
        return Err(Refusal::Name);
    }
    if guard::names::no_period(h, p) {
        return Err(Refusal::Name);
    }
    if guard::names::no_item(h, x) {
        return Err(Refusal::Name);
    }
    if header::is_honest(h, j) {
        return Err(Refusal::Role);
    }
    if guard::items::not_posted(s, x) {
        return Err(Refusal::Unknown);
    }
    Ok(())
}

// 15 and 16: the outsider makes entry x, dishonest peer j's hash or backing of a board in period p.
pub fn judge_false_entry(
    s: &[u8],
    h: Head,
    j: u8,
    p: u8,
    board: u64,
    x: Entry,
) -> Result<(), Refusal>
    requires { Ready h s.now }
    ensures { (x ≡ Hash j p board → answer_of result ≡ answer_on h s.now (FalseHash j p board))
        × (x ≡ Backing j p board → answer_of result ≡ answer_on h s.now (FalseBacking j p board)) }
{
    if guard::names::no_peer(h, j) {
        return Err(Refusal::Name);
    }
    if guard::names::no_period(h, p) {
        return Err(Refusal::Name);
    }
    if guard::names::no_board(h, board) {
        return Err(Refusal::Name);
    }
    if header::is_honest(h, j) {
        return Err(Refusal::Role);
    }
    if bag_guard::boards::unposted(s, h, board) {
        return Err(Refusal::Unknown);
    }
    if bag_guard::entry::is_full(s, x) {
        return Err(Refusal::Full);
    }
    Ok(())
}

// 17 and 18: peer j goes down, or comes up.
pub fn judge_down(s: &[u8], h: Head, j: u8) -> Result<(), Refusal>
    requires { Ready h s.now }
    ensures { (answer_of result ≡ answer_on h s.now (Down j))
        × (answer_of result ≡ answer_on h s.now (Up j)) }
{
    if guard::names::no_peer(h, j) {
        return Err(Refusal::Name);
    }
    if guard::names::not_honest(h, j) {
        return Err(Refusal::Role);
    }
    Ok(())
}

// 19, clear: every honest peer has backed period p.
pub fn judge_clear(s: &[u8], h: Head, p: u8) -> Result<(), Refusal>
    requires { Ready h s.now }
    ensures { answer_of result ≡ answer_on h s.now (ClearHashes p) }
{
    if guard::names::no_period(h, p) {
        return Err(Refusal::Name);
    }
    if guard::backed::unbacked(s, h, p) {
        return Err(Refusal::Period);
    }
    Ok(())
}

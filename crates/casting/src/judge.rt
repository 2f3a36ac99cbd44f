// Steps 1 to 6: from a posted item to its receipt. For each its refusals, in the order in which they are judged.
#![tactic(auto, unfolding(rules::specs::Rules::rule, rules::specs::Rules::answer, base::specs::Refusals::first))]

ghost use Rattle.std.specs.Prelude.{◌≡◌};
ghost use Rattle.base.specs.Refusals.{answer_of};
ghost use Rattle.rules.specs.declared.Step.TheVariants.{Post, Hand, Sign, Take, Share, Receipt};
ghost use Rattle.view.specs.View.{in_row, answer_on, answer_by};
ghost use Rattle.view.specs.Ready.{Ready};

use base::refusal::Refusal;
use header::Head;

// 1, post: item x is posted.
pub fn judge_post(s: &[u8], h: Head, x: u8) -> Result<(), Refusal>
    requires { Ready h s.now }
    ensures { answer_of result ≡ answer_on h s.now (Post x) }
{
    if guard::names::no_item(h, x) {
        return Err(Refusal::Name);
    }
    Ok(())
}

// 2, hand: peer j is handed item x, and holds it in its open period.
pub fn judge_hand(s: &[u8], h: Head, row: u64, j: u8, x: u8) -> Result<(), Refusal>
    requires { Ready h s.now }
    ensures { answer_of result ≡ answer_by h (in_row row) s.now (Hand j x) }
{
    if guard::names::no_peer(h, j) {
        return Err(Refusal::Name);
    }
    if guard::names::no_item(h, x) {
        return Err(Refusal::Name);
    }
    if guard::names::not_honest(h, j) {
        return Err(Refusal::Role);
    }
    if guard::periods::is_down(s, j) {
        return Err(Refusal::Down);
    }
    if guard::periods::none_open(s, h, j) {
        return Err(Refusal::Period);
    }
    if guard::items::not_posted(s, x) {
        return Err(Refusal::Unknown);
    }
    if guard::held::holds_clash(s, h, row, j, x) {
        return Err(Refusal::Clash);
    }
    Ok(())
}

// 3, sign: peer j signs item x, and knows its own signature.
pub fn judge_sign(s: &[u8], h: Head, j: u8, x: u8) -> Result<(), Refusal>
    requires { Ready h s.now }
    ensures { answer_of result ≡ answer_on h s.now (Sign j x) }
{
    if guard::names::no_peer(h, j) {
        return Err(Refusal::Name);
    }
    if guard::names::no_item(h, x) {
        return Err(Refusal::Name);
    }
    if guard::names::not_honest(h, j) {
        return Err(Refusal::Role);
    }
    if guard::periods::is_down(s, j) {
        return Err(Refusal::Down);
    }
    if guard::periods::none_open(s, h, j) {
        return Err(Refusal::Period);
    }
    if guard::items::not_held(s, j, x) {
        return Err(Refusal::Unknown);
    }
    Ok(())
}

// 4, take: peer j takes peer k's signature on item x in period p.
pub fn judge_take(s: &[u8], h: Head, j: u8, k: u8, p: u8, x: u8) -> Result<(), Refusal>
    requires { Ready h s.now }
    ensures { answer_of result ≡ answer_on h s.now (Take j k p x) }
{
    if guard::names::no_peer(h, j) {
        return Err(Refusal::Name);
    }
    if guard::names::no_peer(h, k) {
        return Err(Refusal::Name);
    }
    if guard::names::no_period(h, p) {
        return Err(Refusal::Name);
    }
    if guard::names::no_item(h, x) {
        return Err(Refusal::Name);
    }
    if guard::names::not_honest(h, j) {
        return Err(Refusal::Role);
    }
    if guard::periods::is_down(s, j) {
        return Err(Refusal::Down);
    }
    if guard::periods::beyond(s, j, p) {
        return Err(Refusal::Period);
    }
    if guard::items::not_signed(s, k, p, x) {
        return Err(Refusal::Unknown);
    }
    Ok(())
}

// 5, share: peer j gives its receipt share on item x.
pub fn judge_share(s: &[u8], h: Head, j: u8, x: u8) -> Result<(), Refusal>
    requires { Ready h s.now }
    ensures { answer_of result ≡ answer_on h s.now (Share j x) }
{
    if guard::names::no_peer(h, j) {
        return Err(Refusal::Name);
    }
    if guard::names::no_item(h, x) {
        return Err(Refusal::Name);
    }
    if guard::names::not_honest(h, j) {
        return Err(Refusal::Role);
    }
    if guard::periods::is_down(s, j) {
        return Err(Refusal::Down);
    }
    if guard::periods::none_open(s, h, j) {
        return Err(Refusal::Period);
    }
    if guard::given::has_given(s, j, x) {
        return Err(Refusal::Given);
    }
    if guard::quorum::few_signers(s, h, j, x) {
        return Err(Refusal::Short);
    }
    Ok(())
}

// 6, receipt: t receipt shares on item x in period p make a receipt.
pub fn judge_receipt(s: &[u8], h: Head, p: u8, x: u8) -> Result<(), Refusal>
    requires { Ready h s.now }
    ensures { answer_of result ≡ answer_on h s.now (Receipt p x) }
{
    if guard::names::no_period(h, p) {
        return Err(Refusal::Name);
    }
    if guard::names::no_item(h, x) {
        return Err(Refusal::Name);
    }
    if guard::quorum::few_sharers(s, h, p, x) {
        return Err(Refusal::Short);
    }
    Ok(())
}

// The inner step: on a state that is ready, a step's answer and effect, in place. Nothing is copied and nothing
// re-validated.
// Rows of clashes may be handed in, made once for many steps; where there is no row of an item, its row is made anew.
// Of the table only what clashes is asked.
ghost use Rattle.std.specs.Prelude.{◌≡◌};
ghost use Rattle.base.specs.Refusals.{answer_of};
ghost use Rattle.header.specs.Header.{items_of};
ghost use Rattle.clash.specs.Clash.{clash_in, RowsOf};
ghost use Rattle.view.specs.Ready.{Ready};
ghost use Rattle.view.specs.Stepped.{SteppedBy};

use base::refusal::Refusal;
use clash::rows::clash_row;
use header::Head;
use rules::Step;

// The step, whichever of the nineteen it is.
pub fn advance(table: &[u8], s: &mut [u8], h: Head, rows: &[u64], st: Step) -> Result<(), Refusal>
    requires { Ready h s.old × (h.items ≡ items_of table.now) × RowsOf table.now rows.now }
    ensures { SteppedBy h (clash_in table.now) s.old s.new st (answer_of result) }
{
    match st {
        Step::Post(x) => casting::step_post(s, h, x),
        Step::Hand(j, x) => casting::step_hand(s, h, clash_row(table, rows, x), j, x),
        Step::Sign(j, x) => casting::step_sign(s, h, j, x),
        Step::Take(j, k, p, x) => casting::step_take(s, h, j, k, p, x),
        Step::Share(j, x) => casting::step_share(s, h, j, x),
        Step::Receipt(p, x) => casting::step_receipt(s, h, p, x),
        Step::Close(j) => closing::step_close(s, h, j),
        Step::Fetch(j, k, p) => closing::step_fetch(s, h, j, k, p),
        Step::SendHash(j, p) => closing::step_send_hash(s, h, j, p),
        Step::Hear(j, e) => closing::step_hear(s, h, j, e),
        Step::Back(j) => closing::step_back(s, h, j),
        Step::Publish(e) => closing::step_publish(s, h, e),
        Step::FalseSignature(j, p, x) => outsider::step_false_signature(s, h, j, p, x),
        Step::FalseShare(j, p, x) => outsider::step_false_share(s, h, j, p, x),
        Step::FalseHash(j, p, board) => outsider::step_false_hash(s, h, j, p, board),
        Step::FalseBacking(j, p, board) => outsider::step_false_backing(s, h, j, p, board),
        Step::Down(j) => outsider::step_down(s, h, j),
        Step::Up(j) => outsider::step_up(s, h, j),
        Step::ClearHashes(p) => outsider::step_clear(s, h, p),
    }
}

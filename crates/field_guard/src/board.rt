// The peer's own board of a period.
ghost use Rattle.std.specs.Prelude.{◌≡◌};
ghost use Rattle.view.specs.View.{no_clash, table_of};
ghost use Rattle.field_rules.specs.Rules.{own_board};
ghost use Rattle.field_state.specs.Holding.{box_of};
ghost use Rattle.field_state.specs.Ready.{Ready};

use field_state::part::signers_of;
use header::Head;
use header::quorum::reaches;
use sets::database::with_item;

// The board of period p: the items whose signers reach t.
pub fn board_of(s: &[u8], h: Head, p: u8) -> u64
    requires { Ready h s.now }
    ensures { result ≡ own_board (table_of h no_clash) (box_of s.now) p }
{
    let mut b: u64 = 0;
    for i in 0..h.items {
        b = with_item(b, i, reaches(h, signers_of(s, p, i)));
    }
    b
}

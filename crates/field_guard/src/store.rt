// The hashes heard: whether a new one has room, 13, and whether enough signers sent the same, 12.
ghost use Rattle.std.specs.Prelude.{◌≡◌, not, ◌<◌, length};
ghost use Rattle.rules.specs.declared.Entry.TheVariants.{Hash};
ghost use Rattle.rules.specs.Bag.{is_in, is_full};
ghost use Rattle.rules.specs.Table.{quorum};
ghost use Rattle.state.specs.Layout.{entries};
ghost use Rattle.view.specs.View.{no_clash, table_of};
ghost use Rattle.bag_guard.specs.Signers.{or_zero};
ghost use Rattle.field_state.specs.Layout.{size};
ghost use Rattle.field_state.specs.Holding.{box_of, Canon};
ghost use Rattle.field_state.specs.Ready.{Ready};
ghost use Rattle.field_guard.specs.HashSigners.{hash_signer};

use bag_guard::signers::gather;
use field_state::heard::{SignedHash, heard_len, is_heard};
use field_state::layout;
use header::quorum::reaches;
use header::{Head, Signers};
use state::layout::{ENTRIES, ITEM_BYTES};

// A new hash, and 256 are heard.
pub fn no_room(s: &[u8], x: SignedHash) -> bool
    requires { Canon s.now }
    ensures { result ≡ is_full (Hash x.signer x.period x.board) (box_of s.now).heard }
{
    ENTRIES <= heard_len(s) && !is_heard(s, x)
}

// The signer of heard hash e if it has this period and board.
fn signer_at(s: &[u8], e: usize, p: u8, board: u64) -> Option<u8>
    requires { (length s.now ≡ size) × (e < entries) }
    ensures { or_zero result ≡ hash_signer s.now p board e }
{
    let o = layout::HEARD + layout::HASH_SIZE * e;
    if s[o + 1] == p && bits::load(s, o + 2, ITEM_BYTES) == board {
        Some(s[o])
    } else {
        None
    }
}

// Fewer than t signers among the heard hashes of period p have this board.
pub fn few_heard(s: &[u8], h: Head, p: u8, board: u64) -> bool
    requires { Ready h s.now }
    ensures { result ≡ not (quorum (table_of h no_clash) (λ k. is_in (Hash k p board) (box_of s.now).heard)) }
{
    let heard: Signers = gather(heard_len(s), |e| signer_at(s, e, p, board));
    !reaches(h, heard)
}

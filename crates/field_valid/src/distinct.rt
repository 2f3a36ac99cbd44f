// No two heard hashes are the same: the hashes that a peer heard, told apart by marks.
ghost use Rattle.std.specs.Prelude.{◌≡◌, ◌<◌, ◌≤◌, length};
ghost use Rattle.base.specs.Below.{every};
ghost use Rattle.state.specs.Layout.{entries};
ghost use Rattle.field_state.specs.Layout.{size};
ghost use Rattle.field_valid.specs.BoxOk.{new_at};
ghost use Rattle.field_valid.specs.Marks.{mark_at, same_as, same_mark};

use bag_valid::distinct::mark_of;
use field_state::heard::{SignedHash, is_at};
use field_state::layout;
use marks::Marked;
use state::layout::{HASH, ITEM_BYTES};

// The heard hashes, in the bytes of a field peer's state.
#[derive(Drop)]
struct Hashes<'a> {
    s: &'a [u8],
}

impl Marked for Hashes<'_> {
    ghost is_there = { λ x e. (length x.s.now ≡ size) × (e < entries) };

    ghost mark_of = { λ x e. mark_at x.s.now e };

    ghost is_same = { λ x e d. same_as x.s.now e d };

    ghost same_mark = { λ x e d t. same_mark x.s.now e d t };

    #[tactic(auto, unfolding(crate::specs::Marks::mark_at))]
    fn mark(&self, e: usize) -> usize {
        let s = self.s;
        let o = layout::HEARD + layout::HASH_SIZE * e;
        mark_of(HASH, s[o], s[o + 1], bits::load(s, o + 2, ITEM_BYTES))
    }

    fn same(&self, e: usize, d: usize) -> bool {
        let s = self.s;
        let o = layout::HEARD + layout::HASH_SIZE * e;
        let x = SignedHash {
            signer: s[o],
            period: s[o + 1],
            board: bits::load(s, o + 2, ITEM_BYTES),
        };
        is_at(s, d, x)
    }
}

// Whether each of the first n heard hashes is other than those before it.
#[tactic(auto, unfolding(crate::specs::BoxOk::new_at))]
pub(crate) fn all_new(s: &[u8], n: usize) -> bool
    requires { (length s.now ≡ size) × (n ≤ entries) }
    ensures { result ≡ every n (new_at s.now) }
{
    marks::all_new(&Hashes { s }, n)
}

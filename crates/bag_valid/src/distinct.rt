// No two entries are the same: the entries of a bag, told apart by marks.
ghost use Rattle.std.specs.Prelude.{◌≡◌, ◌<◌, ◌≤◌, length};
ghost use Rattle.base.specs.Below.{every};
ghost use Rattle.marks.specs.New.{marks};
ghost use Rattle.state.specs.Layout.{entries, size};
ghost use Rattle.bag_valid.specs.Numbers.{mark_of, mark_at, same_at, new_at};
ghost use Rattle.bag_valid.specs.Marks.{same_mark};

use marks::{MARKS, Marked};
use state::layout::{BAG, BOARD_IN, ENTRY_SIZE, ITEM_BYTES, PERIOD_IN, SIGNER_IN};

// A prime below the number of marks: a board counts for its mark by what is left when it is divided by this.
const MARK_PRIME: u64 = 32749;

// How far the marks of two names lie apart that differ by 1; the name is the number made of kind, signer and period.
const MARK_STEP: u64 = 41;

// More than any signer's number, so that kind and signer make one number.
const SIGNERS: u64 = 32;

// The mark of the four numbers of an entry.
#[tactic(auto, unfolding(crate::specs::Numbers::mark_of))]
pub fn mark_of(kind: u8, signer: u8, period: u8, board: u64) -> usize
    ensures { (result ≡ mark_of kind signer period board) × (result < marks) }
{
    let name = (kind as u64 * SIGNERS + signer as u64) * 8 + period as u64;
    ((board % MARK_PRIME + MARK_STEP * name) % MARKS) as usize
}

// The entries of a bag, in the bytes of a state.
#[derive(Drop)]
struct Entries<'a> {
    s: &'a [u8],
}

#[tactic(auto, unfolding(crate::specs::Numbers::mark_at, crate::specs::Numbers::same_at))]
impl Marked for Entries<'_> {
    ghost is_there = { λ x e. (length x.s.now ≡ size) × (e < entries) };

    ghost mark_of = { λ x e. mark_at x.s.now e };

    ghost is_same = { λ x e d. same_at x.s.now e d };

    ghost same_mark = { λ x e d t. same_mark x.s.now e d t };

    fn mark(&self, e: usize) -> usize {
        let s = self.s;
        let o = BAG + ENTRY_SIZE * e;
        mark_of(
            s[o],
            s[o + SIGNER_IN],
            s[o + PERIOD_IN],
            bits::load(s, o + BOARD_IN, ITEM_BYTES),
        )
    }

    // Whether entries e and d have the same four numbers.
    fn same(&self, e: usize, d: usize) -> bool {
        let s = self.s;
        let o = BAG + ENTRY_SIZE * e;
        let q = BAG + ENTRY_SIZE * d;
        bits::load(s, o + BOARD_IN, ITEM_BYTES) == bits::load(s, q + BOARD_IN, ITEM_BYTES)
            && s[o + SIGNER_IN] == s[q + SIGNER_IN]
            && s[o + PERIOD_IN] == s[q + PERIOD_IN]
            && s[o] == s[q]
    }
}

// Whether each of the first n entries is other than those before it.
#[tactic(auto, unfolding(crate::specs::Numbers::new_at))]
pub(crate) fn all_new(s: &[u8], n: usize) -> bool
    requires { (length s.now ≡ size) × (n ≤ entries) }
    ensures { result ≡ every n (new_at s.now) }
{
    marks::all_new(&Entries { s }, n)
}

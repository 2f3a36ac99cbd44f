// Twins: two of the texts that pairs mark out are the same. They are told apart by marks.
// It uses pairs for the texts, marks to look for twins, and base; the ballot table and the sheet go through it.
#![tactic(auto)]

ghost use Rattle.std.specs.Prelude.{◌≡◌, ◌<◌};
ghost use Rattle.marks.specs.New.{marks};
ghost use Rattle.twins.specs.Twins.{twinless};
ghost use Rattle.twins.specs.Marks.{mark_of, mark_at, are_same, same_mark};

use marks::Marked;
use pairs::Pairs;

// A prime below the number of marks, so that each of a text's first bytes tells in its mark.
const MARK_PRIME: u64 = 4093;

// The mark of a text: what its first eight bytes, as a number, leave over.
#[tactic(auto, unfolding(crate::specs::Marks::mark_of))]
fn mark_of(text: &[u8]) -> usize
    ensures { (result ≡ mark_of text.now) × (result < marks) }
{
    (base::number_at(text, 0, 8) % MARK_PRIME) as usize
}

// The texts that pairs mark out.
#[derive(Drop)]
struct Texts<'a> {
    pairs: Pairs<'a>,
}

#[tactic(auto, using(base::proofs::Bytes::same_pointwise), unfolding(crate::specs::Marks::mark_at))]
impl Marked for Texts<'_> {
    ghost is_there = { λ x k. k < 256 };

    ghost mark_of = { λ x k. mark_at x.pairs.bytes.now x.pairs.at k };

    ghost is_same = { λ x j i. are_same x.pairs.bytes.now x.pairs.at j i };

    ghost same_mark = { λ x j i t. same_mark x.pairs.bytes.now x.pairs.at j i t };

    fn mark(&self, e: usize) -> usize {
        mark_of(self.pairs.text(e as u8))
    }

    fn same(&self, e: usize, d: usize) -> bool {
        self.pairs.text(d as u8) == self.pairs.text(e as u8)
    }
}

// Whether no two of the texts that the pairs mark out are twins.
pub fn no_twins(p: Pairs) -> bool
    ensures { result ≡ twinless p.entry.bytes.now p.entry.at p.entry.count }
{
    marks::all_new(&Texts { pairs: p }, p.count as usize)
}

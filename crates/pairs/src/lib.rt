// Pairs of offset and length, and the texts that they mark out in the list of bytes in which they stand.
// It uses the crate base and no other; it knows no table.
#![tactic(auto)]

ghost use Rattle.std.specs.Prelude.{◌≡◌, ◌≤◌};
ghost use Rattle.pairs.specs.Pairs.{pair_number, offset_of, size_of, first_offset, end_before, starts_at_end};
ghost use Rattle.pairs.specs.Pairs.{pairs_fit, last_end, pairs_ok, text_of};

// The number of a pair that stands at byte i: every offset and length is read through it.
// Where both bytes are there they are looked for once.
fn pair_number(s: &[u8], i: usize) -> u16
    requires { i ≤ 65536 }
    ensures { result ≡ pair_number s.now i }
{
    if s.len() < i + 2 {
        return base::number_at(s, i, 2) as u16;
    }
    (s[i] as u16) * 256 + (s[i + 1] as u16)
}

// Where the pairs end, and the first text starts.
pub fn first_offset(at: u8, count: u8) -> usize
    ensures { result ≡ first_offset at count }
{
    at as usize + 4 * (count as usize)
}

// The pairs, `count` of them, that stand in a list of bytes from byte `at` on.
#[derive(Clone, Copy)]
pub struct Pairs<'a> {
    pub bytes: &'a [u8],
    pub at: u8,
    pub count: u8,
}

impl<'a> Pairs<'a> {
    // The offset that pair k gives.
    pub fn offset(self, k: u8) -> u16
        ensures { result ≡ offset_of self.entry.bytes.now self.entry.at k }
    {
        pair_number(self.bytes, self.at as usize + 4 * (k as usize))
    }

    // The length that pair k gives.
    pub fn size(self, k: u8) -> u16
        ensures { result ≡ size_of self.entry.bytes.now self.entry.at k }
    {
        pair_number(self.bytes, self.at as usize + 4 * (k as usize) + 2)
    }

    // Where what stands before text k ends.
    fn end_before(self, k: u8) -> usize
        ensures { result ≡ end_before self.entry.bytes.now self.entry.at self.entry.count k }
    {
        if k == 0 {
            return first_offset(self.at, self.count);
        }
        self.offset(k - 1) as usize + self.size(k - 1) as usize
    }

    // Whether text k starts where what stands before it ends.
    #[tactic(auto, unfolding(crate::specs::Pairs::starts_at_end))]
    fn starts_at_end(self, k: u8) -> bool
        ensures { result ≡ starts_at_end self.entry.bytes.now self.entry.at self.entry.count k }
    {
        self.offset(k) as usize == self.end_before(k)
    }

    // Whether the pairs are not cut short, and each text starts where the one before it ends.
    pub fn fit(self) -> bool
        ensures { result ≡ pairs_fit self.entry.bytes.now self.entry.at self.entry.count }
    {
        first_offset(self.at, self.count) <= self.bytes.len()
            && (0..self.count).all(|k| self.starts_at_end(k))
    }

    // Where the last text ends.
    pub fn last_end(self) -> usize
        ensures { result ≡ last_end self.entry.bytes.now self.entry.at self.entry.count }
    {
        self.end_before(self.count)
    }

    // Whether the pairs fit, and the last text ends where the list does.
    #[tactic(auto, unfolding(crate::specs::Pairs::pairs_ok))]
    pub fn are_ok(self) -> bool
        ensures { result ≡ pairs_ok self.entry.bytes.now self.entry.at self.entry.count }
    {
        self.fit() && self.last_end() == self.bytes.len()
    }

    // Text k, as the part of the list that it is.
    pub fn text(self, k: u8) -> &'a [u8]
        ensures { result.now ≡ text_of self.entry.bytes.now self.entry.at k }
    {
        base::part_of(self.bytes, self.offset(k) as usize, self.size(k) as usize)
    }
}

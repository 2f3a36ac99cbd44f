// Things told apart by marks. A thing has a number, its mark, and of things that differ most have different ones: so a
// thing is compared with those before it only where one of them has its mark.
// It uses bits for the row of the marks seen, and base for its laws.
#![tactic(auto)]

ghost use Rattle.std.specs.Prelude.{◌≡◌, ℕ, ◌<◌, ◌≤◌, Bool, true};
ghost use Rattle.base.specs.Below.{any, every};
ghost use Rattle.marks.specs.New.{marks, new_at, Seen};

// How many marks there are.
pub const MARKS: u64 = 32768;

// The bytes of a row with a bit for each.
const ROW: usize = 4096;

pub trait Marked {
    // There is a thing of this number.
    ghost is_there: { Self → ℕ → Type 0 };

    ghost mark_of: { Self → ℕ → ℕ };

    ghost is_same: { Self → ℕ → ℕ → Bool };

    // The mark of thing e.
    fn mark(&self, e: usize) -> usize
        requires { is_there self.now e }
        ensures { (result ≡ mark_of self.now e) × (result < marks) };

    // Whether things e and d are the same.
    fn same(&self, e: usize, d: usize) -> bool
        requires { is_there self.now e × is_there self.now d }
        ensures { result ≡ is_same self.now e d };

    // The same things have the same mark.
    ghost same_mark: { (x : Self) (e d : ℕ) → is_same x e d ≡ true → mark_of x e ≡ mark_of x d };
}

// Whether a thing before thing e is the same.
fn is_before<M: Marked>(of: &M, e: usize) -> bool
    requires { (d : ℕ) → d ≤ e → M.is_there of.now d }
    ensures { result ≡ any e (M.is_same of.now e) }
{
    (0..e).any(|d| of.same(e, d))
}

// Whether each of the first n things is other than those before it.
pub fn all_new<M: Marked>(of: &M, n: usize) -> bool
    requires { (e : ℕ) → e < n → M.is_there of.now e }
    ensures { result ≡ every n (new_at (M.is_same of.now)) }
{
    let mut seen = [0; ROW];
    for e in 0..n {
        let mark = of.mark(e);
        if bits::has(&seen, mark) && is_before(of, e) {
            return false;
        }
        bits::put(&mut seen, mark);
    }
    true
}

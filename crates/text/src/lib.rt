// Text written into a lent buffer: bytes, words and numbers, each at the place where the one before it ended.
// What lies past the buffer's end is counted and not written.
// It uses io for decimal digits, and no other crate.
#![tactic(auto)]

ghost use Rattle.std.specs.Prelude.{[], ◌∷◌, ◌≡◌};
ghost use Rattle.text.specs.Wrote.{Put};
ghost use Rattle.text.specs.Decimal.{decimal, field};

// A lent buffer, and the place in it at which the next text goes.
#[derive(Drop)]
pub struct Printer<'a> {
    pub out: &'a mut [u8],
    pub at: usize,
}

impl<'a> Printer<'a> {
    // At the buffer's start.
    pub fn new(out: &'a mut [u8]) -> Printer<'a>
        ensures same { result.out.ghost_name ≡ out.entry.ghost_name }
        ensures out { result.out.now ≡ out.old }
        ensures at { result.at ≡ 0 }
    {
        Printer { out, at: 0 }
    }

    // Writes a byte.
    pub fn byte(&mut self, b: u8)
        ensures { Put self.old (b ∷ []) self.new }
    {
        if self.at < self.out.len() {
            self.out[self.at] = b;
            self.at += 1;
        } else {
            self.at = self.at.saturating_add(1);
        }
    }

    // Writes a word, byte by byte.
    pub fn word(&mut self, word: &[u8])
        ensures { Put self.old word.now self.new }
    {
        let out = &mut *self.out;
        let mut at = self.at;
        for b in word {
            if at < out.len() {
                out[at] = *b;
                at += 1;
            } else {
                at = at.saturating_add(1);
            }
        }
        self.at = at;
    }

    // Writes a number in decimal digits.
    pub fn decimal(&mut self, n: u64)
        ensures { Put self.old (decimal n) self.new }
    {
        let mut digits = [0u8; 20];
        let k = io::decimal(n, &mut digits);
        self.word(&digits[..k]);
    }

    // Writes a blank and a number.
    pub fn field(&mut self, n: u64)
        ensures { Put self.old (field n) self.new }
    {
        self.byte(b' ');
        self.decimal(n);
    }
}

// A slice of bytes as a row of bits, and as numbers of several bytes, low byte first.
// It uses base, for its laws of bits, and no other crate.
#![tactic(auto)]

ghost use Rattle.std.specs.Prelude.{◌≡◌, ◌+◌, ◌/◌, ◌^◌, ◌<◌, ◌≤◌, ltb, length};
ghost use Rattle.base.specs.Bits.{bit};
ghost use Rattle.bits.specs.Row.{bit_at, write_bit, put_bit, zeros};
ghost use Rattle.bits.specs.Number.{num, stored, joined};

// Bit a of the row.
pub fn has(s: &[u8], a: usize) -> bool
    requires { a / 8 < length s.now }
    ensures { result ≡ bit_at s.now a }
{
    (s[a / 8] >> (a % 8)) % 2 == 1
}

// Bit a of the row; none is set past its end.
pub fn bit_at(s: &[u8], a: usize) -> bool
    ensures { result ≡ bit_at s.now a }
{
    a / 8 < s.len() && has(s, a)
}

// Makes bit a what v says: set or cleared.
pub fn write(s: &mut [u8], a: usize, v: bool)
    requires { a / 8 < length s.old }
    ensures { s.new ≡ write_bit s.old a v }
{
    let one = 1u8 << (a % 8);
    if v {
        s[a / 8] |= one;
    } else {
        s[a / 8] = (s[a / 8] | one) ^ one;
    }
}

// Sets bit a.
pub fn put(s: &mut [u8], a: usize)
    requires { a / 8 < length s.old }
    ensures { s.new ≡ put_bit s.old a }
{
    s[a / 8] |= 1 << (a % 8);
}

// The number in the two bytes from o on.
pub fn word(s: &[u8], o: usize) -> u16
    requires { o + 2 ≤ length s.now }
    ensures { result ≡ num 2 s.now o }
{
    u16::from_le_bytes([s[o], s[o + 1]])
}

// The number in the n bytes from o on.
pub fn load(s: &[u8], o: usize, n: usize) -> u64
    requires { (n ≤ 8) × (o + n ≤ length s.now) }
    ensures { result ≡ num n s.now o }
{
    let mut v: u64 = 0;
    for i in (0..n).rev() {
        v = v * 256 + s[o + i] as u64;
    }
    v
}

// Stores the n low bytes of v from o on.
pub fn store(s: &mut [u8], o: usize, n: usize, v: u64)
    requires { (n ≤ 8) × (o + n ≤ length s.old) }
    ensures { s.new ≡ stored n s.old o v }
{
    let mut w = v;
    for i in 0..n {
        s[o + i] = (w % 256) as u8;
        w /= 256;
    }
}

// Sets, in the two bytes from o on, the bits of v.
pub fn join(s: &mut [u8], o: usize, v: u16)
    requires { o + 2 ≤ length s.old }
    ensures { (s.new ≡ joined 2 s.old o v) × (v < 2 ^ 16) }
{
    store(s, o, 2, (word(s, o) | v) as u64);
}

// Whether a number has only bits below m: a board, only items below m.
pub fn is_below(board: u64, m: u8) -> bool
    requires { m ≤ 64 }
    ensures { result ≡ ltb board (2 ^ m) }
{
    m == 64 || board >> m == 0
}

// Whether a number has bit x: a board, item x.
pub fn has_bit(board: u64, x: u8) -> bool
    requires { x < 64 }
    ensures { result ≡ bit board x }
{
    (board >> x) % 2 == 1
}

// Whether the n bytes from o on are 0. The loop gathers and asks at its end, so that it takes many bytes at a time.
pub fn all_zero(s: &[u8], o: usize, n: usize) -> bool
    requires { o + n ≤ length s.now }
    ensures { result ≡ zeros n s.now o }
{
    let mut sum: u8 = 0;
    for i in 0..n {
        sum |= s[o + i];
    }
    sum == 0
}

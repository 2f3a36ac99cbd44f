// The hashes of a period removed from the bag, in place: the rest keep their order and are numbered afresh, and the
// heard numbers of every peer follow.
// It uses bag to read and to write entries, bits for the heard bits, and state for where they stand.
#![tactic(auto)]

ghost use Rattle.std.specs.Prelude.{◌≡◌, not, ◌+◌, ◌-◌, ◌*◌, ◌^◌, ◌<◌, ◌≤◌, length, take, set};
ghost use Rattle.base.specs.Bits.{digit};
ghost use Rattle.base.specs.Bytes.{byte_at};
ghost use Rattle.rules.specs.Bag.{is_hash_of, entry_at as nth};
ghost use Rattle.state.specs.Layout.{peers, entries, size};
ghost use Rattle.state.specs.Contents.{contents, Canon, Holds, bag_on};
ghost use Rattle.state.specs.Cleared.{afresh, hearing, with_bag, cleared};
ghost use Rattle.clearing.specs.Moves.{Numbers, Rising, heard_bit, heard_byte, Zeroed, Moved};

use bag::bag_len;
use state::layout;

// Whether entry e stays: it is no hash of period p.
fn stays(s: &[u8], e: usize, p: u8) -> bool
    requires { Canon s.now × (e < length (bag_on s.now)) }
    ensures { result ≡ not (is_hash_of p (nth (bag_on s.now) e)) }
{
    let o = layout::BAG + layout::ENTRY_SIZE * e;
    s[o + layout::PERIOD_IN] != p || s[o] != layout::HASH
}

// Lists the numbers of the entries that stay, and gives how many they are.
fn list_kept(s: &[u8], p: u8, old: &mut [u8]) -> usize
    requires { Canon s.now × (length old.old ≡ entries) }
    ensures { Numbers p (bag_on s.now) old.new result }
{
    let mut w = 0;
    for e in 0..bag_len(s) {
        old[w] = e as u8;
        w += stays(s, e, p) as usize;
    }
    w
}

// Bit a of the heard bits: that of the entry which now has this number.
fn heard_bit(s: &[u8], old: &[u8; 256], n: usize, a: usize) -> bool
    requires { (length s.now ≡ size) × (a < peers * entries) }
    ensures { result ≡ heard_bit s.now old.now n a }
{
    let e = a % layout::ENTRIES;
    if n <= e {
        return false;
    }
    bits::has(s, 8 * layout::HEARD + (a - e + old[e] as usize))
}

// A byte of bits below k, and bit k if told so.
fn with_bit(v: u8, k: u8, yes: bool) -> u8
    requires { (v < 2 ^ k) × (k < 8) }
    ensures { result ≡ v + digit yes * 2 ^ k }
{
    if yes { v + (1 << k) } else { v }
}

// Byte b of the heard bits: 0 where no entry has its numbers.
fn heard_byte(s: &[u8], old: &[u8; 256], n: usize, b: usize) -> u8
    requires { (length s.now ≡ size) × (8 * b < peers * entries) }
    ensures { result ≡ heard_byte s.now old.now n b }
{
    if n <= 8 * b % layout::ENTRIES {
        return 0;
    }
    let mut v: u8 = 0;
    for k in 0..8u8 {
        v = with_bit(v, k, heard_bit(s, old, n, 8 * b + k as usize));
    }
    v
}

// Numbers what every peer heard afresh: entry e, of n, had number old[e].
fn renumber(s: &mut [u8], old: &[u8; 256], n: usize)
    requires { Canon s.old × Rising n old.now entries }
    ensures { Holds s.new (hearing
        (afresh n (byte_at old.now) (contents s.old).has) (contents s.old)) }
{
    for b in 0..512usize {
        s[layout::HEARD + b] = heard_byte(s, old, n, b);
    }
}

// Writes entry e over entry w.
fn move_entry(s: &mut [u8], w: usize, e: usize)
    requires { Canon s.old × (w < length (bag_on s.old)) × (e < length (bag_on s.old)) }
    ensures { Holds s.new
        (with_bag (set (bag_on s.old) w (nth (bag_on s.old) e)) (contents s.old)) }
{
    let x = bag::entry_at(s, e);
    bag::write_entry(s, layout::BAG + layout::ENTRY_SIZE * w, x);
}

// Writes the n entries that stay over the first n.
fn move_kept(s: &mut [u8], old: &[u8; 256], n: usize)
    requires { Canon s.old × Rising n old.now (length (bag_on s.old)) }
    ensures { Moved s.old s.new old.now n }
{
    for w in 0..n {
        move_entry(s, w, old[w] as usize);
    }
}

// Writes 0 in the bytes from `from` on, up to `to`.
fn zero(s: &mut [u8], from: usize, to: usize)
    requires { (from ≤ to) × (to ≤ length s.old) }
    ensures { Zeroed s.old s.new from to }
{
    s[from..to].fill(0);
}

// Leaves the first n entries.
fn cut(s: &mut [u8], n: usize)
    requires { Canon s.old × (n ≤ length (bag_on s.old)) }
    ensures { Holds s.new (with_bag (take n (bag_on s.old)) (contents s.old)) }
{
    let m = bag_len(s);
    zero(
        s,
        layout::BAG + layout::ENTRY_SIZE * n,
        layout::BAG + layout::ENTRY_SIZE * m,
    );
    bits::store(s, layout::COUNT, layout::COUNT_BYTES, n as u64);
}

// 19 clear: removes the hashes of period p.
pub fn clear_hashes(s: &mut [u8], p: u8)
    requires { Canon s.old }
    ensures { Holds s.new (cleared p (contents s.old)) }
{
    let mut old = [0u8; 256];
    let n = list_kept(s, p, &mut old);
    renumber(s, &old, n);
    move_kept(s, &old, n);
    cut(s, n);
}

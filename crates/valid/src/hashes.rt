// The set of the bag's hash entries, as bits.
ghost use Rattle.std.specs.Prelude.{◌≡◌, cond, ◌/◌, ◌<◌, ◌≤◌, length};
ghost use Rattle.bits.specs.Row.{put_bit};
ghost use Rattle.state.specs.Layout.{entries, size};
ghost use Rattle.state.specs.Contents.{count, contents};
ghost use Rattle.valid.specs.Rows.{mask};
ghost use Rattle.valid.specs.Regions.{entry_bytes, hash_in};

use state::layout::{BAG, ENTRY_SIZE, HASH};

// Sets bit a if told so.
fn put_if(m: &mut [u8], a: usize, yes: bool)
    requires { a / 8 < length m.old }
    ensures { m.new ≡ cond yes (put_bit m.old a) m.old }
{
    if yes {
        bits::put(m, a);
    }
}

// The set of the hash entries among the n of the bag.
pub(crate) fn hashes(s: &[u8], n: usize) -> [u8; 32]
    requires { (length s.now ≡ size) × ((n ≡ count s.now) × (n ≤ entries)) }
    ensures { result ≡ mask entry_bytes (hash_in (contents s.now).bag) }
{
    let mut m = [0; 32];
    for e in 0..n {
        put_if(&mut m, e, s[BAG + ENTRY_SIZE * e] == HASH);
    }
    m
}

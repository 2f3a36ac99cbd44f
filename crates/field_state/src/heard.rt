// The hashes heard: looked for, and one more.
ghost use Rattle.std.specs.Prelude.{◌≡◌, false, ◌+◌, ◌*◌, ◌^◌, ◌<◌, ◌≤◌, length};
ghost use Rattle.rules.specs.declared.Entry.TheVariants.{Hash};
ghost use Rattle.rules.specs.Bag.{is_in, is_full};
ghost use Rattle.state.specs.Layout.{entries};
ghost use Rattle.field_state.specs.Layout.{hash_size, size};
ghost use Rattle.field_state.specs.Holding.{box_of, heard_count, Canon, Holds};
ghost use Rattle.field_state.specs.Hearing.{same_at, hash_written, hearing};

use crate::layout;
use state::layout::{COUNT_BYTES, ITEM_BYTES};

// A hash, as a peer sends it: who signed it, for which period, of which board.
#[derive(Clone, Copy)]
pub struct SignedHash {
    pub signer: u8,
    pub period: u8,
    pub board: u64,
}

// How many hashes are heard.
pub fn heard_len(s: &[u8]) -> usize
    requires { Canon s.now }
    ensures { (result ≡ heard_count s.now) × (result ≤ entries) }
{
    bits::word(s, layout::COUNT) as usize
}

// Whether heard hash e is this one.
pub fn is_at(s: &[u8], e: usize, x: SignedHash) -> bool
    requires { (length s.now ≡ size) × (e < entries) }
    ensures { result ≡ same_at s.now x.signer x.period x.board e }
{
    let o = layout::HEARD + layout::HASH_SIZE * e;
    x.signer == s[o] && x.period == s[o + 1] && x.board == bits::load(s, o + 2, ITEM_BYTES)
}

// Whether the hash is heard.
pub fn is_heard(s: &[u8], x: SignedHash) -> bool
    requires { Canon s.now }
    ensures { result ≡ is_in (Hash x.signer x.period x.board) (box_of s.now).heard }
{
    (0..heard_len(s)).any(|e| is_at(s, e, x))
}

// Writes a hash from o on.
fn write(s: &mut [u8], o: usize, x: SignedHash)
    requires { o + hash_size ≤ length s.old }
    ensures { (s.new ≡ hash_written s.old o x.signer x.period x.board)
        × ((x.signer < 256) × ((x.period < 256) × (x.board < 256 ^ 8))) }
{
    s[o] = x.signer;
    s[o + 1] = x.period;
    bits::store(s, o + 2, ITEM_BYTES, x.board);
}

// Adds a hash at the end.
fn append(s: &mut [u8], x: SignedHash)
    requires { Canon s.old × (heard_count s.old < entries) × (is_in (Hash x.signer x.period x.board)
        (box_of s.old).heard ≡ false) }
    ensures { Holds s.new (hearing x.signer x.period x.board (box_of s.old)) }
{
    let n = heard_len(s);
    write(s, layout::HEARD + layout::HASH_SIZE * n, x);
    bits::store(s, layout::COUNT, COUNT_BYTES, (n + 1) as u64);
}

// Notes a hash, unless it is heard; there is room for it.
pub fn hear(s: &mut [u8], x: SignedHash)
    requires { Canon s.old × (is_full (Hash x.signer x.period x.board) (box_of s.old).heard ≡ false) }
    ensures { Holds s.new (hearing x.signer x.period x.board (box_of s.old)) }
{
    if is_heard(s, x) {
        return;
    }
    append(s, x);
}

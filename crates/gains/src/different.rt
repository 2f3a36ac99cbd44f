// The different steps 16 of a file, counted block after block. In a block each step is found by its bytes.
ghost use Rattle.std.specs.Prelude.{◌≡◌, ◌+◌, ◌*◌, ◌<◌, ◌≤◌, length, replicate};
ghost use Rattle.base.specs.Bytes.{same_bytes};
ghost use Rattle.base.specs.Tab.{FilledTo};
ghost use Rattle.gains.specs.Gain.{is_op, different_of};
ghost use Rattle.gains.specs.File.{file_call, calls_to};
ghost use Rattle.gains.specs.Chains.{last_where, below, mix_of, is_new, new_digit, new_like, Chains, Fresh};

use crate::sum;
use base::{byte_at, part_of};

// How many steps a block has.
const BLOCK: usize = 8192;

// The hash of a call.
fn mix_of(c: &[u8]) -> usize
    ensures { (result ≡ mix_of c.now) × (result < 4096) }
{
    let mut h = 0;
    for i in 0..13 {
        h = (h * 257 + byte_at(c, i) as usize) % 4093;
    }
    h
}

// Whether step i of s and step j of t have the same bytes.
fn same_step(s: &[u8], i: usize, t: &[u8], j: usize) -> bool
    requires { (13 * i ≤ length s.now) × (13 * j ≤ length t.now) }
    ensures { result ≡ same_bytes (file_call t.now j) (file_call s.now i) }
{
    part_of(t, 13 * j, 13) == part_of(s, 13 * i, 13)
}

// The new step of s that has the bytes of step j of t, whose hash is h. A chain has one more than a step's number, and
// 0 at its end.
fn find(s: &[u8], heads: &[u16], links: &[u16], t: &[u8], j: usize, h: usize) -> Option<usize>
    requires { (13 * j ≤ length t.now) × Chains s.now (length links.now) heads.now links.now
        × (h ≡ mix_of (file_call t.now j)) × (h < 4096) }
    ensures { result ≡ below (last_where (new_like s.now (file_call t.now j))
        (length links.now)) }
{
    let mut at = heads[h] as usize;
    while 0 < at {
        let i = at - 1;
        if same_step(s, i, t, j) {
            return Some(i);
        }
        at = links[i] as usize;
    }
    None
}

// Puts step k into its chain if it is a 16 that does not stand before, and says whether it is; the chains have the
// steps before it. Its hash serves the search and the chain.
fn join(s: &[u8], k: usize, heads: &mut [u16], links: &mut [u16]) -> bool
    requires { (13 * k + 13 ≤ length s.now) × (k < 8192) × (length links.old ≡ 8192)
        × Chains s.now k heads.old links.old }
    ensures { (result ≡ is_new s.now k) × (length links.new ≡ 8192)
        × Chains s.now (k + 1) heads.new links.new }
{
    if byte_at(s, 13 * k) != 16 {
        return false;
    }
    let h = mix_of(part_of(s, 13 * k, 13));
    if find(s, heads, &links[..k], s, k, h).is_some() {
        return false;
    }
    links[k] = heads[h];
    heads[h] = (k + 1) as u16;
    true
}

// Puts the first n steps into their chains; `fresh` has 1 for each that is new.
fn join_steps(s: &[u8], n: usize, heads: &mut [u16], links: &mut [u16], fresh: &mut [u8])
    requires { (13 * n ≤ length s.now) × (n ≤ 8192) × (length links.old ≡ 8192) × (length fresh.old ≡ 8192)
        × Chains s.now 0 heads.old links.old }
    ensures { (Chains s.now n heads.new links.new)
        × (FilledTo 0 8192 (new_digit s.now) n fresh.new) }
{
    for k in 0..n {
        fresh[k] = join(s, k, heads, links) as u8;
    }
}

// Strikes step j of s from what is fresh in the block.
fn strike(s: &[u8], j: usize, block: &[u8], heads: &[u16], links: &[u16], fresh: &mut [u8])
    requires { (13 * j + 13 ≤ length s.now) × Chains block.now (length links.now) heads.now links.now
        × Fresh s.now j block.now (length links.now) fresh.old }
    ensures { Fresh s.now (j + 1) block.now (length links.now)
        fresh.new }
{
    if byte_at(s, 13 * j) != 16 {
        return;
    }
    let h = mix_of(part_of(s, 13 * j, 13));
    if let Some(i) = find(block, heads, links, s, j, h) {
        fresh[i] = 0;
    }
}

// Strikes the first b steps of s from what is fresh in the block.
fn strike_steps(s: &[u8], b: usize, block: &[u8], heads: &[u16], links: &[u16], fresh: &mut [u8])
    requires { (13 * b ≤ length s.now) × Chains block.now (length links.now) heads.now links.now
        × Fresh s.now 0 block.now (length links.now) fresh.old }
    ensures { Fresh s.now b block.now (length links.now)
        fresh.new }
{
    for j in 0..b {
        strike(s, j, block, heads, links, fresh);
    }
}

// How many steps the block at b has, of n in all.
fn block_size(b: usize, n: usize) -> usize
    requires { b < n }
    ensures { (0 < result) × (result ≤ 8192) × (b + result ≤ n) }
{
    BLOCK.min(n - b)
}

// The steps 16 of the block at b that stand neither before it nor before themselves in it.
// The heads are 0; the links and what is fresh are written before they are read.
fn count_new(
    s: &[u8],
    b: usize,
    size: usize,
    heads: &mut [u16],
    links: &mut [u16],
    fresh: &mut [u8],
) -> usize
    requires { (13 * (b + size) ≤ length s.now) × (size ≤ 8192) × (heads.old ≡ replicate 4096 0)
        × (length links.old ≡ 8192) × (length fresh.old ≡ 8192) }
    ensures { different_of (is_op 16) (calls_to s.now b) + result
        ≡ different_of (is_op 16) (calls_to s.now (b + size)) }
{
    let block = part_of(s, 13 * b, 13 * size);
    join_steps(block, size, heads, links, fresh);
    strike_steps(s, b, block, heads, &links[..size], fresh);
    sum(fresh, size)
}

// The same, with room for the chains.
fn count_block(s: &[u8], b: usize, size: usize) -> usize
    requires { (13 * (b + size) ≤ length s.now) × (size ≤ 8192) }
    ensures { different_of (is_op 16) (calls_to s.now b) + result
        ≡ different_of (is_op 16) (calls_to s.now (b + size)) }
{
    let mut heads = [0u16; 4096];
    let mut links = [0u16; BLOCK];
    let mut fresh = [0u8; BLOCK];
    count_new(s, b, size, &mut heads, &mut links, &mut fresh)
}

// The different steps 16 among the first n.
pub(crate) fn count_backings(s: &[u8], n: usize) -> usize
    requires { 13 * n ≤ length s.now }
    ensures { (result ≡ different_of (is_op 16) (calls_to s.now n)) × (result ≤ n) }
{
    let mut r = 0;
    let mut b = 0;
    while b < n {
        let size = block_size(b, n);
        r += count_block(s, b, size);
        b += size;
    }
    r
}

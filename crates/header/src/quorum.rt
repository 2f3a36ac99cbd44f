// Sets of peers, by the two kinds of key: a peer added, the members counted and weighed, and the one test of a quorum.
ghost use Rattle.std.specs.Prelude.{◌≡◌, ℕ};
ghost use Rattle.base.specs.Bits.{member};
ghost use Rattle.base.specs.Weight.{weight};
ghost use Rattle.header.specs.Header.{even_in, heavy_in};
ghost use Rattle.header.specs.Quorum.{room, reaches, count_in, weight_of, with_peer};

use crate::{Head, Sharers, Signers, joined};

// A set of peers in sixteen bits, whichever keys they are known by.
pub trait PeerSet: Copy {
    ghost bits: { Self → ℕ };

    fn of_bits(set: u16) -> Self
        ensures { bits result ≡ set };

    fn bits(self) -> u16
        ensures { result ≡ bits self };
}

impl PeerSet for u16 {
    ghost bits = { λ set. set };

    fn of_bits(set: u16) -> u16 {
        set
    }

    fn bits(self) -> u16 {
        self
    }
}

impl PeerSet for Signers {
    ghost bits = { λ set. set.0 };

    fn of_bits(set: u16) -> Signers {
        Signers(set)
    }

    fn bits(self) -> u16 {
        self.0
    }
}

impl PeerSet for Sharers {
    ghost bits = { λ set. set.0 };

    fn of_bits(set: u16) -> Sharers {
        Sharers(set)
    }

    fn bits(self) -> u16 {
        self.0
    }
}

// The set of peers with peer k; no peer is 0 or above 16.
pub fn with_peer<S: PeerSet>(set: S, k: u8) -> S
    ensures { S.bits result ≡ with_peer (S.bits set) k }
{
    if k == 0 || 16 < k {
        return set;
    }
    S::of_bits(set.bits() | 1 << (k - 1))
}

// How many peers are in a set.
fn count(set: u16) -> u32
    ensures { result ≡ count_in set }
{
    u32::count_ones(set as u32)
}

// How many signers there are.
pub fn signer_count(set: Signers) -> u32
    ensures { result ≡ count_in set.0 }
{
    count(set.0)
}

// The peers whose weight is even.
fn even(h: Head) -> u16
    ensures { result ≡ even_in h }
{
    (h.sets / 65536 % 65536) as u16
}

// The peers whose weight is heavy.
fn heavy(h: Head) -> u16
    ensures { result ≡ heavy_in h }
{
    (h.sets / 4294967296 % 65536) as u16
}

// The weight of a set of peers: its members, the even ones once more and the heavy ones twice, in one count of bits.
fn weigh(h: Head, set: u16) -> u32
    ensures { result ≡ weight (weight_of h) room (member set) }
{
    let twice = set & heavy(h);
    u64::count_ones(joined(set, set & even(h), twice, twice))
}

// Whether a set of peers reaches t. In older tables nobody is even or heavy, and the members are counted.
pub fn reaches<S: PeerSet>(h: Head, set: S) -> bool
    ensures { result ≡ reaches h (S.bits set) }
{
    let set = set.bits();
    if h.sets / 65536 == 0 {
        return h.t as u32 <= count(set);
    }
    h.t as u32 <= weigh(h, set)
}

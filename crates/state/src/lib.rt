// The bytes of the engine's state: at which byte what stands, what the bytes say, and its facts and numbers.
// The bag's entries are in bag, whole sets in sets.
// Above these three all but bag_valid and valid see what the bytes say, `contents`, and no byte.
// It uses bits to read and to write, and the vocabulary of rules.
#![tactic(auto)]

ghost use Rattle.std.specs.Prelude.{◌≡◌};
ghost use Rattle.state.specs.Numbers.{peer_of};

pub mod facts;
pub mod layout;
pub mod numbers;
pub mod place;
pub mod range;

// What a state can hold. Peers count from 1; periods, items and entries from 0.
#[derive(Clone, Copy)]
pub enum Fact {
    // item
    Posted(u8),
    // peer, period, item: a signature outside
    Signed(u8, u8, u8),
    // peer, period, item: a receipt share outside
    Shared(u8, u8, u8),
    // period, item: a receipt
    Receipted(u8, u8),
    // peer, period, item
    Held(u8, u8, u8),
    // peer, period, item, signer: a signature in the peer's database
    Known(u8, u8, u8, u8),
    // peer, entry: a hash entry that the peer heard
    Heard(u8, u8),
}

// The numbers of a peer: its open period, the next period to back, and 1 for down.
#[derive(Clone, Copy)]
pub enum Number {
    // p, the open period
    CurrentOf(u8),
    // c, the next period to back
    ToBackOf(u8),
    // 1 where the peer is down
    DownOf(u8),
}

impl Number {
    // The peer whose number it is.
    pub(crate) fn peer(self) -> u8
        ensures { result ≡ peer_of self }
    {
        match self {
            Number::CurrentOf(j) | Number::ToBackOf(j) | Number::DownOf(j) => j,
        }
    }
}

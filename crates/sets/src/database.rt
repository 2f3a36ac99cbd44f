// One peer's database: its signer sets by period and item, another's added to them, and the board of a period.
ghost use Rattle.std.specs.Prelude.{◌≡◌, ◌+◌, ◌*◌, ◌^◌, ◌<◌, ◌≤◌};
ghost use Rattle.base.specs.Bits.{digit};
ghost use Rattle.state.specs.Layout.{items};
ghost use Rattle.state.specs.Facts.{Row};
ghost use Rattle.state.specs.Contents.{contents, Canon, Holds, adding};
ghost use Rattle.state.specs.Sets.{known_to};
ghost use Rattle.sets.specs.Database.{row_of, database_of, on_row, peer_board};
ghost use Rattle.state.specs.Sets.{fetched};

use crate::whole::{add_signers, signers_of};
use header::quorum::reaches;
use header::{Head, Signers};
use state::layout;

// Peer j's signer sets of period p, by item.
pub fn row(s: &[u8], j: u8, p: u8) -> [Signers; 64]
    requires { Canon s.now }
    ensures { result ≡ row_of (contents s.now) j p }
{
    let mut r = [Signers(0); 64];
    for i in 0..layout::ITEMS {
        r[i] = signers_of(s, j, p, i as u8);
    }
    r
}

// Peer j's signer sets, by period and item.
pub fn database(s: &[u8], j: u8) -> [[Signers; 64]; 8]
    requires { Canon s.now }
    ensures { result ≡ database_of (contents s.now) j }
{
    let mut d = [[Signers(0); 64]; 8];
    for p in 0..layout::PERIODS {
        d[p] = row(s, j, p as u8);
    }
    d
}

// Adds the sets of a row to peer j's database of period p.
pub fn add_row(s: &mut [u8], j: u8, p: u8, sets: [Signers; 64])
    requires { Canon s.old × Row j p }
    ensures { Holds s.new (adding (known_to j p (on_row sets items)) (contents s.old)) }
{
    for i in 0..layout::ITEMS {
        add_signers(s, j, p, i as u8, sets[i]);
    }
}

// 8 fetch: adds the other's database of period p to peer j's.
pub fn fetch(s: &mut [u8], j: u8, other: u8, p: u8)
    requires { Canon s.old × Row j p }
    ensures { Holds s.new (fetched j other p (contents s.old)) }
{
    let sets = row(s, other, p);
    add_row(s, j, p, sets);
}

// A board of items below i, and item i if told so.
pub fn with_item(b: u64, i: u8, yes: bool) -> u64
    requires { (b < 2 ^ i) × (i < items) }
    ensures { result ≡ b + digit yes * 2 ^ i }
{
    if yes { b + (1 << i) } else { b }
}

// Peer j's board of period p: the items whose signers reach t.
pub fn board_of(s: &[u8], h: Head, j: u8, p: u8) -> u64
    requires { Canon s.now × (h.items ≤ items) }
    ensures { result ≡ peer_board h (contents s.now) j p }
{
    let sets = row(s, j, p);
    let mut b: u64 = 0;
    for i in 0..h.items {
        b = with_item(b, i, reaches(h, sets[i as usize]));
    }
    b
}

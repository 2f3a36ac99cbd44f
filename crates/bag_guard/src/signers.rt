// Whether fewer than t peers hashed or backed a board: 12. Peers are gathered into a set, from one entry after the other.
ghost use Rattle.std.specs.Prelude.{◌≡◌, not, ℕ, ◌<◌, length, Option};
ghost use Rattle.state.specs.Layout.{entries};
ghost use Rattle.state.specs.Contents.{contents, Canon, bag_on};
ghost use Rattle.view.specs.View.{quorum_of, heard_on, backers_on};
ghost use Rattle.view.specs.Ready.{Ready};
ghost use Rattle.bag_guard.specs.Signers.{or_zero, heard_signer, back_signer, gathered};

use bag::{bag_len, signer_at};
use header::quorum::{PeerSet, reaches, with_peer};
use header::{Head, Sharers, Signers};
use state::facts::is_heard_by;
use state::layout::{BACKING, HASH};

// The peers that the function finds for 0 to n - 1, gathered into a set.
pub fn gather<S: PeerSet, F: Fn(usize) -> Option<u8>>(n: usize, signer: F) -> S
    requires { (e : ℕ) → e < n → F.pre signer e }
    ensures { (f : ℕ → ℕ) → ((e : ℕ) (k : Option ℕ) → e < n → F.post signer e k → or_zero k ≡ f e)
        → S.bits result ≡ gathered f n }
{
    let mut set = S::of_bits(0);
    for e in 0..n {
        if let Some(k) = signer(e) {
            set = with_peer(set, k);
        }
    }
    set
}

// The signer of entry e if it is a hash of the period and the board that peer j heard.
fn heard_signer(s: &[u8], j: u8, p: u8, board: u64, e: usize) -> Option<u8>
    requires { Canon s.now × (e < length (bag_on s.now)) × (e < entries) }
    ensures { or_zero result ≡ heard_signer (contents s.now) j p board e }
{
    match signer_at(s, e, HASH, p, board) {
        Some(k) => is_heard_by(s, j, e as u8).then_some(k),
        None => None,
    }
}

// Peer j heard fewer than t hashes of the board in period p.
pub fn few_heard(s: &[u8], h: Head, j: u8, p: u8, board: u64) -> bool
    requires { Ready h s.now }
    ensures { result ≡ not (quorum_of h (heard_on s.now j p board)) }
{
    let heard: Signers = gather(bag_len(s), |e| heard_signer(s, j, p, board, e));
    !reaches(h, heard)
}

// The bag has fewer than t backings of the board in period p.
pub fn few_backers(s: &[u8], h: Head, p: u8, board: u64) -> bool
    requires { Ready h s.now }
    ensures { result ≡ not (quorum_of h (backers_on s.now p board)) }
{
    // A backing is signed with the share key.
    let backers: Sharers = gather(bag_len(s), |e| signer_at(s, e, BACKING, p, board));
    !reaches(h, backers)
}

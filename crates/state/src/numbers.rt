// The numbers of a peer: read, and stored.
ghost use Rattle.std.specs.Prelude.{◌≡◌};
ghost use Rattle.state.specs.declared.Number.TheVariants.{CurrentOf, ToBackOf, DownOf};
ghost use Rattle.state.specs.Facts.{Peer};
ghost use Rattle.state.specs.Numbers.{peer_of};
ghost use Rattle.state.specs.Contents.{contents, Canon, Holds, store};

use crate::Number;
use crate::place::slot_of;
use crate::range::is_peer;

// A number; 0 where there is no room for its peer.
fn number_of(s: &[u8], n: Number) -> u8
    requires { Canon s.now }
    ensures { result ≡ (contents s.now).number n }
{
    if is_peer(n.peer()) { s[slot_of(n)] } else { 0 }
}

// Peer j's open period.
pub fn current_of(s: &[u8], j: u8) -> u8
    requires { Canon s.now }
    ensures { result ≡ (contents s.now).number (CurrentOf j) }
{
    number_of(s, Number::CurrentOf(j))
}

// The next period that peer j is to back.
pub fn to_back_of(s: &[u8], j: u8) -> u8
    requires { Canon s.now }
    ensures { result ≡ (contents s.now).number (ToBackOf j) }
{
    number_of(s, Number::ToBackOf(j))
}

// 1 where peer j is down, 0 where it is up.
pub fn down_of(s: &[u8], j: u8) -> u8
    requires { Canon s.now }
    ensures { result ≡ (contents s.now).number (DownOf j) }
{
    number_of(s, Number::DownOf(j))
}

// Gives the number the value v.
pub fn set_value(s: &mut [u8], n: Number, v: u8)
    requires { Canon s.old × Peer (peer_of n) }
    ensures { Holds s.new (store n v (contents s.old)) }
{
    let at = slot_of(n);
    s[at] = v;
}

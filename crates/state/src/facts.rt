// Facts: whether one is there, and one added.
ghost use Rattle.std.specs.Prelude.{◌≡◌};
ghost use Rattle.state.specs.declared.Fact.TheVariants.{Posted, Signed, Held, Heard};
ghost use Rattle.state.specs.Facts.{Within};
ghost use Rattle.state.specs.Contents.{contents, Canon, Holds, insert};

use crate::place::{cell_of, heard_by, peer_bit, place_of, spot_of};
use crate::range::{in_range, is_heard, is_item, is_spot};
use crate::{Fact, layout};

// Whether the state has the fact.
pub fn is_there(s: &[u8], f: Fact) -> bool
    requires { Canon s.now }
    ensures { result ≡ (contents s.now).has f }
{
    in_range(f) && bits::has(s, place_of(f))
}

// The same for the kinds that most steps ask for, each by its own place.

// Whether item i is posted.
pub fn is_posted(s: &[u8], i: u8) -> bool
    requires { Canon s.now }
    ensures { result ≡ (contents s.now).has (Posted i) }
{
    is_item(i) && bits::has(s, 8 * layout::POSTED + i as usize)
}

// Whether peer k's signature on item i in period p is outside.
pub fn is_signed(s: &[u8], k: u8, p: u8, i: u8) -> bool
    requires { Canon s.now }
    ensures { result ≡ (contents s.now).has (Signed k p i) }
{
    is_spot(k, p, i) && bits::has(s, 8 * layout::SIGNED + peer_bit(cell_of(p, i), k))
}

// Whether peer j holds item i in period p.
pub fn is_held(s: &[u8], j: u8, p: u8, i: u8) -> bool
    requires { Canon s.now }
    ensures { result ≡ (contents s.now).has (Held j p i) }
{
    is_spot(j, p, i) && bits::has(s, 8 * layout::HELD + spot_of(j, p, i))
}

// Whether peer j heard entry e.
pub fn is_heard_by(s: &[u8], j: u8, e: u8) -> bool
    requires { Canon s.now }
    ensures { result ≡ (contents s.now).has (Heard j e) }
{
    is_heard(j, e) && bits::has(s, 8 * layout::HEARD + heard_by(j, e))
}

// Adds the fact.
pub fn add_fact(s: &mut [u8], f: Fact)
    requires { Canon s.old × Within f }
    ensures { Holds s.new (insert f (contents s.old)) }
{
    bits::put(s, place_of(f));
}

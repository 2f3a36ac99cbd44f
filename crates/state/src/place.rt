// The bit at which a fact stands, and the byte at which a number stands.
ghost use Rattle.std.specs.Prelude.{◌≡◌, ◌+◌, ◌-◌, ◌*◌, ◌<◌};
ghost use Rattle.state.specs.Layout.{peers, periods, items, entries};
ghost use Rattle.state.specs.Facts.{Peer, Cell, Row, Spot, Within};
ghost use Rattle.state.specs.Places.{cell, row, spot, place};
ghost use Rattle.state.specs.Numbers.{peer_of, slot};

use crate::{Fact, Number, layout};

// The place of a period and an item, in their order.
pub fn cell_of(p: u8, i: u8) -> usize
    requires { Cell p i }
    ensures { (result ≡ cell p i) × (result < periods * items) }
{
    p as usize * layout::ITEMS + i as usize
}

// The place of a peer and a period, in their order.
pub fn row_of(j: u8, p: u8) -> usize
    requires { Row j p }
    ensures { (result ≡ row j p) × (result < peers * periods) }
{
    (j - 1) as usize * layout::PERIODS + p as usize
}

// The place of a peer, a period and an item, in their order.
pub fn spot_of(j: u8, p: u8, i: u8) -> usize
    requires { Spot j p i }
    ensures { (result ≡ spot j p i) × (result < peers * (periods * items)) }
{
    row_of(j, p) * layout::ITEMS + i as usize
}

// A peer's bit in a set of peers, of which n stand before.
pub(crate) fn peer_bit(n: usize, k: u8) -> usize
    requires { (n < peers * (periods * items)) × Peer k }
    ensures { (result ≡ n * peers + (k - 1)) × (result < peers * (periods * items) * peers) }
{
    n * layout::PEERS + (k - 1) as usize
}

// The place of a peer and the number of an entry, in their order.
pub(crate) fn heard_by(j: u8, e: u8) -> usize
    requires { Peer j × (e < entries) }
    ensures { (result ≡ (j - 1) * entries + e) × (result < peers * entries) }
{
    (j - 1) as usize * layout::ENTRIES + e as usize
}

// The bit at which a fact stands.
pub(crate) fn place_of(f: Fact) -> usize
    requires { Within f }
    ensures { result ≡ place f }
{
    match f {
        Fact::Posted(i) => 8 * layout::POSTED + i as usize,
        Fact::Signed(k, p, i) => 8 * layout::SIGNED + peer_bit(cell_of(p, i), k),
        Fact::Shared(k, p, i) => 8 * layout::SHARED + peer_bit(cell_of(p, i), k),
        Fact::Receipted(p, i) => 8 * layout::RECEIPTED + cell_of(p, i),
        Fact::Held(j, p, i) => 8 * layout::HELD + spot_of(j, p, i),
        Fact::Known(j, p, i, k) => 8 * layout::DATABASE + peer_bit(spot_of(j, p, i), k),
        Fact::Heard(j, e) => 8 * layout::HEARD + heard_by(j, e),
    }
}

// The byte at which a number stands.
pub(crate) fn slot_of(n: Number) -> usize
    requires { Peer (peer_of n) }
    ensures { result ≡ slot n }
{
    match n {
        Number::CurrentOf(j) => layout::CURRENT + (j - 1) as usize,
        Number::ToBackOf(j) => layout::TO_BACK + (j - 1) as usize,
        Number::DownOf(j) => layout::DOWN + (j - 1) as usize,
    }
}

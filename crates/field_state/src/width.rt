// How many bits a set of signers may have.
ghost use Rattle.std.specs.Prelude.{◌≡◌};
ghost use Rattle.field_state.specs.Width.{width_at};

use header::Head;

// How many bits a set of signers on item x has: n, or none where the table has no such item.
pub fn width_at(h: Head, x: u8) -> u8
    ensures { result ≡ width_at h x }
{
    if x < h.items { h.n } else { 0 }
}

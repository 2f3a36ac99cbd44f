// Rows of bits, of which some must be 0.
// The loops over bytes gather and ask at their end, so that they take many bytes at a time.
ghost use Rattle.std.specs.Prelude.{◌≡◌, ◌+◌, ◌*◌, ◌≤◌, length};
ghost use Rattle.state.specs.Layout.{peers, periods};
ghost use Rattle.valid.specs.Rows.{masked, masked_if, rows_masked, table_masked_if, tables_masked};

use state::layout::{PEERS, PERIODS};

// Whether of the bits from byte o on, as many as the mask has, only those are 1 that are 1 in the mask.
pub(crate) fn only(s: &[u8], o: usize, mask: &[u8]) -> bool
    requires { o + length mask.now ≤ length s.now }
    ensures { result ≡ masked s.now o mask.now }
{
    let mut beside: u8 = 0;
    for i in 0..mask.len() {
        beside = beside | ((s[o + i] | mask[i]) ^ mask[i]);
    }
    beside == 0
}

// Of one row: where the table has it, whether only bits of the mask are 1; where not, whether its bytes are 0.
fn row(s: &[u8], o: usize, there: bool, mask: &[u8]) -> bool
    requires { o + length mask.now ≤ length s.now }
    ensures { result ≡ masked_if there s.now o mask.now }
{
    if there {
        return only(s, o, mask);
    }
    bits::all_zero(s, o, mask.len())
}

// Whether this holds of each of the rows from byte o on, of which the table has the first `used`.
pub(crate) fn each_row(s: &[u8], o: usize, rows: usize, used: usize, mask: &[u8]) -> bool
    requires { o + rows * length mask.now ≤ length s.now }
    ensures { result ≡ rows_masked rows used s.now o mask.now }
{
    (0..rows).all(|i| row(s, o + mask.len() * i, i < used, mask))
}

// Of one peer's rows, one for each period: where the table has the peer, whether each row is as above;
// where not, whether their bytes are 0.
fn table(s: &[u8], o: usize, there: bool, used: usize, mask: &[u8]) -> bool
    requires { (length mask.now ≤ 128) × (o + periods * length mask.now ≤ length s.now) }
    ensures { result ≡ table_masked_if there used s.now o mask.now }
{
    if there {
        return each_row(s, o, PERIODS, used, mask);
    }
    bits::all_zero(s, o, PERIODS * mask.len())
}

// Whether this holds of each peer, of whom the table has the first n.
pub(crate) fn each_table(s: &[u8], o: usize, n: usize, used: usize, mask: &[u8]) -> bool
    requires { (length mask.now ≤ 128) × (o + peers * (periods * length mask.now) ≤ length s.now) }
    ensures { result ≡ tables_masked n used s.now o mask.now }
{
    let size = PERIODS * mask.len();
    (0..PEERS).all(|j| table(s, o + size * j, j < n, used, mask))
}

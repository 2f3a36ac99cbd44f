// 8, fetch: the other's database of a period, as the message brings it, judged and added.
ghost use Rattle.std.specs.Prelude.{◌≡◌, ◌+◌, ◌*◌, ◌<◌};
ghost use Rattle.base.specs.Bytes.{number_at};
ghost use Rattle.state.specs.Layout.{periods, items};
ghost use Rattle.state.specs.Facts.{Cell};
ghost use Rattle.view.specs.View.{no_clash, table_of};
ghost use Rattle.view.specs.Ready.{Room};
ghost use Rattle.field_rules.specs.Rules.{stray_rows};
ghost use Rattle.field_rules.specs.MessageBytes.{rows_in};
ghost use Rattle.field_state.specs.Holding.{box_of, Canon, Holds};
ghost use Rattle.field_guard.specs.Fetching.{stray_at, joining, rows_to};

use field_state::layout;
use field_state::width::width_at;
use header::Head;
use state::layout::PEER_BYTES;
use state::place::cell_of;

// The signers that the message brings on item x.
fn row_at(message: &[u8], x: u8) -> u16
    requires { x < items }
    ensures { (result ≡ number_at message.now (13 + 2 * x) 2) × (result < 65536) }
{
    base::number_at(message, 13 + 2 * x as usize, 2) as u16
}

// Whether the message brings, on item x, a signer that the table has not.
fn stray_at(message: &[u8], h: Head, x: u8) -> bool
    requires { Room h × (x < items) }
    ensures { result ≡ stray_at h message.now x }
{
    let w = row_at(message, x);
    !bits::is_below(w as u64, width_at(h, x))
}

// Whether it brings such a one on any item.
pub fn stray_rows(message: &[u8], h: Head) -> bool
    requires { Room h }
    ensures { result ≡ stray_rows (table_of h no_clash) (rows_in message.now) }
{
    (0..64u8).any(|x| stray_at(message, h, x))
}

// Adds a set of signers on item x to the database of period p.
fn know_all(s: &mut [u8], p: u8, x: u8, set: u16)
    requires { Canon s.old × Cell p x }
    ensures { Holds s.new (joining p x set (box_of s.old)) }
{
    bits::join(s, layout::KNOWN + PEER_BYTES * cell_of(p, x), set);
}

// Adds what the message brings on item x.
fn add_row(s: &mut [u8], p: u8, x: u8, message: &[u8])
    requires { Canon s.old × Cell p x }
    ensures { Holds s.new
        (joining p x (number_at message.now (13 + 2 * x) 2) (box_of s.old)) }
{
    know_all(s, p, x, row_at(message, x));
}

// Adds the rows that the message brings to the database of period p.
pub fn add_rows(s: &mut [u8], p: u8, message: &[u8])
    requires { Canon s.old × (p < periods) }
    ensures { Holds s.new (rows_to p items message.now (box_of s.old)) }
{
    for x in 0..64u8 {
        add_row(s, p, x, message);
    }
}

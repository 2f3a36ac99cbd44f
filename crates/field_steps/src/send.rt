// What the peer sends, in thirteen bytes.
ghost use Rattle.std.specs.Prelude.{◌≡◌, length};
ghost use Rattle.form.specs.Written.{bytes_of};

use rules::Fields;

// Writes the fields, the board with its high byte first.
pub fn send(out: &mut [u8], f: Fields)
    requires { length out.old ≡ 13 }
    ensures { out.new ≡ bytes_of f }
{
    out[..5].copy_from_slice(&[f.op, f.peer, f.other, f.period, f.item]);
    out[5..].copy_from_slice(&f.board.to_be_bytes());
}

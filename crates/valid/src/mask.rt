// Masks: the bytes in which the bits that the table allows are 1, and no others.
ghost use Rattle.std.specs.Prelude.{◌≡◌, ◌<◌};
ghost use Rattle.valid.specs.Rows.{first, in_rows, byte_of, mask};

// Byte b of the row in which the first n bits are 1.
fn first_byte(n: u8, b: usize) -> u8
    ensures { result ≡ byte_of (first n) b }
{
    if b < (n / 8) as usize {
        return 255;
    }
    if b > (n / 8) as usize {
        return 0;
    }
    (1 << (n % 8)) - 1
}

// Byte b of the rows of w bytes of which the first `used` are such rows, and the others 0.
fn byte_of(used: u8, w: usize, n: u8, b: usize) -> u8
    requires { 0 < w }
    ensures { result ≡ byte_of (in_rows used w (first n)) b }
{
    if b / w < used as usize {
        return first_byte(n, b % w);
    }
    0
}

// The mask of N bytes of those rows.
pub(crate) fn of_rows<const N: usize>(used: u8, w: usize, n: u8) -> [u8; N]
    requires { 0 < w }
    ensures { result ≡ mask N (in_rows used w (first n)) }
{
    let mut m = [0; N];
    for b in 0..N {
        m[b] = byte_of(used, w, n, b);
    }
    m
}

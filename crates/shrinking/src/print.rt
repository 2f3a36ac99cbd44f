// The numbers of the steps that are left, one a line.
ghost use Rattle.std.specs.Prelude.{◌<◌, ◌≤◌};
ghost use Rattle.text.specs.Wrote.{Put, each};
ghost use Rattle.rehearsal.specs.Input.{input_most};
ghost use Rattle.trials.specs.Flags.{kept};
ghost use Rattle.shrinking.specs.Shrunk.{number_line, kept_line};

use text::Printer;
use trials::flags::is_kept;

// The line of step k: steps are numbered from 1.
fn put_number(out: &mut Printer, k: usize)
    requires { k < input_most }
    ensures { Put out.old (number_line k) out.new }
{
    out.decimal((k + 1) as u64);
    out.byte(b'\n');
}

// The line of step k, if it is kept.
fn put_kept(out: &mut Printer, flags: &[u8], k: usize)
    requires { k < input_most }
    ensures { Put out.old (kept_line (kept flags.now) k) out.new }
{
    if is_kept(flags, k) {
        put_number(out, k);
    }
}

// The lines of the kept ones among the first n steps.
pub fn put_all(out: &mut Printer, flags: &[u8], n: usize)
    requires { n ≤ input_most }
    ensures { Put out.old (each (kept_line (kept flags.now)) n) out.new }
{
    for k in 0..n {
        put_kept(out, flags, k);
    }
}

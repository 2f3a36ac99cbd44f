// The rehearsal of an input that is not refused, cut down in lent bytes.
ghost use Rattle.std.specs.Prelude.{◌≡◌, ◌≤◌, length};
ghost use Rattle.state.specs.Layout.{size};
ghost use Rattle.text.specs.Wrote.{Put};
ghost use Rattle.rehearsal.specs.Input.{table_in, input_refusal};
ghost use Rattle.dropping.specs.Kept.{every_step};
ghost use Rattle.trials.specs.Flags.{kept, room};
ghost use Rattle.shrinking.specs.Shrunk.{steps_most, shrunk};
ghost use Rattle.shrinking.specs.Uncut.{Uncut};

use crate::print::put_all;
use base::refusal::Refusal;
use clash::rows::clash_rows;
use rehearsal::input::step_count;
use report::lines::put_refused;
use text::Printer;
use trials::trial::Trial;

// Cuts down the steps, and writes what is left.
fn cut_steps(trial: &Trial, flags: &mut [u8], s: &mut [u8], out: &mut Printer)
    requires { Uncut trial.now.input.now trial.now.last flags.old s.old }
    ensures { Put out.old (shrunk trial.now.input.now) out.new }
{
    let wanted = trial.last_answer(flags, s);
    if wanted == 0 {
        return put_refused(out, Refusal::Clean);
    }
    trial.passes(wanted, flags, s);
    put_all(out, flags, trial.last + 1);
}

// Cuts down the steps of an input that is not refused, and writes what is left of them, or 18.
pub fn cut(input: &[u8], table: &[u8], flags: &mut [u8], s: &mut [u8], out: &mut Printer)
    requires { (input_refusal input.now ≡ 0) × (table.now ≡ table_in input.now) × (length s.old ≡ size)
        × (steps_most ≤ room flags.old) × (kept flags.old ≡ every_step) }
    ensures { Put out.old (shrunk input.now) out.new }
{
    let n = step_count(input);
    if n == 0 {
        return put_refused(out, Refusal::Clean);
    }
    let rows = clash_rows(table);
    let trial = Trial {
        input,
        table,
        head: header::head_of(table),
        rows: &rows,
        last: n - 1,
    };
    cut_steps(&trial, flags, s, out);
}

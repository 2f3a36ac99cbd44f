// The steps, each run in place and answered by a line, and the report around them.
ghost use Rattle.std.specs.Prelude.{◌≡◌, ◌<◌, length};
ghost use Rattle.state.specs.Layout.{size};
ghost use Rattle.text.specs.Wrote.{Put};
ghost use Rattle.rehearsal.specs.Input.{input_most, table_end, table_in, step_count};
ghost use Rattle.rehearsal.specs.Rehearsal.{state_at, last_state, report_of};
ghost use Rattle.rehearsal.specs.Running.{Taken, Made, Ran, RanOne};

use crate::input::{call_at, step_count, table_end};
use base::refusal::answer;
use clash::rows::clash_rows;
use header::{Head, honest_count};
use report::lines::{put_head, put_step};
use report::shown::put_state;
use text::Printer;

// What is the same for every step: the input, where its steps start, its table, and what was made of this once.
#[derive(Clone, Copy)]
pub struct Rehearsal<'a> {
    pub input: &'a [u8],
    pub start: usize,
    pub table: &'a [u8],
    pub head: Head,
    pub rows: &'a [u64],
    pub ghost made: { Made input.now table.now head rows.now },
    pub ghost starts: { start ≡ table_end input.now },
}

impl<'a> Rehearsal<'a> {
    // Runs step k and writes its line. The head is handed on: taken out of the rehearsal here it is copied for each step.
    fn run_one(&self, h: Head, k: usize, s: &mut [u8], out: &mut Printer)
        requires { (h ≡ self.now.head) × (k < input_most) × (s.old ≡ state_at self.now.input.now k) }
        ensures { RanOne self.now.input.now k s.new out.old out.new }
    {
        let step = call_at(self.input, self.start, k);
        let answer = answer(engine::run_step(self.table, s, h, self.rows, step));
        put_step(out, (k + 1) as u64, answer);
    }

    // Runs every step and writes its line.
    fn run(&self, s: &mut [u8], out: &mut Printer)
        requires { s.old ≡ state_at self.now.input.now 0 }
        ensures { Ran self.now.input.now (step_count self.now.input.now) s.new out.old out.new }
    {
        let h = self.head;
        for k in 0..step_count(self.input) {
            self.run_one(h, k, s, out);
        }
    }

    // The report of the steps run from the fresh state, and the state that they lead to.
    fn tell(&self, s: &mut [u8], out: &mut Printer)
        requires { s.old ≡ state_at self.now.input.now 0 }
        ensures { (s.new ≡ last_state self.now.input.now)
            × Put out.old (report_of self.now.input.now) out.new }
    {
        let h = self.head;
        put_head(out, h.n, h.t, honest_count(h));
        self.run(s, out);
        put_state(out, s, h);
    }
}

// The report of an input that is not refused, and the state that its steps lead to.
pub fn play(input: &[u8], table: &[u8], s: &mut [u8], out: &mut Printer)
    requires { Taken input.now × (table.now ≡ table_in input.now) × (length s.old ≡ size) }
    ensures { (s.new ≡ last_state input.now)
        × Put out.old (report_of input.now) out.new }
{
    let rows = clash_rows(table);
    let rehearsal = Rehearsal {
        input,
        start: table_end(input),
        table,
        head: header::head_of(table),
        rows: &rows,
    };
    engine::clear(s);
    rehearsal.tell(s, out);
}

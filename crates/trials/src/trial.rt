// A trial: the kept steps are run from the fresh state, then the last step.
ghost use Rattle.std.specs.Prelude.{◌≡◌, ◌<◌, ◌+◌, length};
ghost use Rattle.state.specs.Layout.{size};
ghost use Rattle.rehearsal.specs.Input.{input_most};
ghost use Rattle.trials.specs.Flags.{kept};
ghost use Rattle.trials.specs.Answers.{answer_in};
ghost use Rattle.trials.specs.Running.{Fixed, Stands};

use crate::flags::is_kept;
use base::refusal::answer;
use header::Head;
use rehearsal::input::call_at;

// What is the same in every trial: the input, its table, what was made of this once, and the number of the last step,
// counted from 0.
#[derive(Clone, Copy)]
pub struct Trial<'a> {
    pub input: &'a [u8],
    pub table: &'a [u8],
    pub head: Head,
    pub rows: &'a [u64],
    pub last: usize,
    pub ghost fixed: { Fixed input.now table.now head rows.now last },
}

impl<'a> Trial<'a> {
    // Runs step k if it is kept. The head is handed on: taken out of the trial here it is copied for each step.
    fn run_if_kept(&self, h: Head, flags: &[u8], k: usize, s: &mut [u8])
        requires { (h ≡ self.now.head) × (k < input_most)
            × Stands self.now.input.now (kept flags.now) k s.old }
        ensures { Stands self.now.input.now (kept flags.now) (k + 1) s.new }
    {
        if is_kept(flags, k) {
            let step = call_at(self.input, self.table.len(), k);
            let _ = engine::run_step(self.table, s, h, self.rows, step);
        }
    }

    // Runs the kept steps before the last, from the fresh state.
    fn run_kept(&self, flags: &[u8], s: &mut [u8])
        requires { length s.old ≡ size }
        ensures { Stands self.now.input.now (kept flags.now) self.now.last s.new }
    {
        let h = self.head;
        engine::clear(s);
        for k in 0..self.last {
            self.run_if_kept(h, flags, k, s);
        }
    }

    // The last step's answer, where the kept steps before it have run from the fresh state.
    pub fn last_answer(&self, flags: &[u8], s: &mut [u8]) -> u8
        requires { length s.old ≡ size }
        ensures { result ≡ answer_in self.now.input.now (kept flags.now) }
    {
        self.run_kept(flags, s);
        let step = call_at(self.input, self.table.len(), self.last);
        answer(engine::run_step(self.table, s, self.head, self.rows, step))
    }
}

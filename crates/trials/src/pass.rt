// A pass: trials from the last step but one to the first; and passes, until one drops none.
ghost use Rattle.std.specs.Prelude.{◌≡◌, ◌<◌, length};
ghost use Rattle.state.specs.Layout.{size};
ghost use Rattle.dropping.specs.Kept.{every_step};
ghost use Rattle.dropping.specs.Trials.{Tried, Passed};
ghost use Rattle.trials.specs.Flags.{kept, room};
ghost use Rattle.trials.specs.Answers.{answer_in, steps_left};

use crate::flags::{drop_step, is_kept, put_back};
use crate::trial::Trial;

impl<'a> Trial<'a> {
    // Tries step k: without it the last answer must be the wanted one, else it is put back. Answers whether a step of
    // the pass was dropped, this one or one before it.
    fn try_step(&self, wanted: u8, k: usize, dropped: bool, flags: &mut [u8], s: &mut [u8]) -> bool
        requires { (length s.old ≡ size)
            × (wanted ≡ answer_in self.now.input.now every_step) × (k < room flags.old) }
        ensures { Tried (answer_in self.now.input.now)
            (kept flags.old) (kept flags.new) k dropped result }
    {
        if !is_kept(flags, k) {
            return dropped;
        }
        drop_step(flags, k);
        if self.last_answer(flags, s) == wanted {
            return true;
        }
        put_back(flags, k);
        dropped
    }

    // Makes a pass. Answers whether a step was dropped.
    fn pass(&self, wanted: u8, flags: &mut [u8], s: &mut [u8]) -> bool
        requires { (length s.old ≡ size)
            × (wanted ≡ answer_in self.now.input.now every_step) × (self.now.last < room flags.old) }
        ensures { Passed (answer_in self.now.input.now) self.now.last
            (kept flags.old) (kept flags.new) result }
    {
        let mut dropped = false;
        for k in (0..self.last).rev() {
            dropped = self.try_step(wanted, k, dropped, flags, s);
        }
        dropped
    }

    // Makes passes, until one drops none.
    pub fn passes(&self, wanted: u8, flags: &mut [u8], s: &mut [u8])
        requires { (length s.old ≡ size)
            × (wanted ≡ answer_in self.now.input.now every_step) × (self.now.last < room flags.old)
            × (kept flags.old ≡ every_step) }
        ensures { kept flags.new ≡ steps_left self.now.input.now }
    {
        let mut again = true;
        while again {
            again = self.pass(wanted, flags, s);
        }
    }
}

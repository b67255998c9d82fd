// What takes a reading.
ghost use Rattle.std.specs.Prelude.{◌≡◌, ℕ, List};
ghost use Rattle.trees.specs.Steps.{On, on_step};

use crate::step::Step;

// A receiver is told each step of a reading, with the window that it comes from. It cannot fail.
pub trait Receiver {
    ghost Meaning: { Type 0 };

    ghost state: { Self → Meaning };

    // What a step makes of the state, for a window of these bytes.
    ghost act: { List ℕ → Meaning → On → Meaning };

    fn take(&mut self, window: &[u8], step: Step<'_>)
        ensures { state self.new ≡ act window.now (state self.old) (on_step step.entry) };
}

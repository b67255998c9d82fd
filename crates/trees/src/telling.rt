// A buffer that is read, and the receiver that is told what was read.
ghost use Rattle.std.specs.Prelude.{◌≡◌};
ghost use Rattle.trees.specs.Steps.{on_step};
ghost use Rattle.trees.specs.Tellings.{Told};

use crate::receiver::Receiver;
use crate::step::Step;
use items::buffer::Buffer;

#[derive(Drop)]
pub struct Telling<'a, 'r, R> {
    pub buf: Buffer<'a>,
    pub to: &'r mut R,
}

impl<'a, 'r, R: Receiver> Telling<'a, 'r, R> {
    // Reads from the buffer's place on, and tells this receiver.
    pub fn new(buf: Buffer<'a>, to: &'r mut R) -> Telling<'a, 'r, R>
        ensures buffer { result.buf ≡ buf.entry }
        ensures receiver { result.to.now ≡ to.old }
        ensures lender { result.to.ghost_name ≡ to.entry.ghost_name }
    {
        Telling { buf, to }
    }

    // Tells a step.
    // Inlined, so that no step is made that the receiver does not look at.
    #[inline(always)]
    pub fn take(&mut self, step: Step<'_>)
        ensures { Told R.Receiver (on_step step.entry) self.old self.new }
    {
        self.to.take(self.buf.window, step);
    }
}

// Receivers of rows that say nothing of what they make of them.
ghost use Rattle.trees.specs.Payloads.{v04};
ghost use Rattle.reading.specs.Rows.{Counts};

use crate::receiver::{Receiver, RowReceiver};
use crate::rows;
use faults::PayloadFault;
use listing::row::SpanRow;

#[derive(Drop)]
struct Plain<'r, R> {
    to: &'r mut R,
}

impl<'r, R: Receiver> RowReceiver for Plain<'r, R> {
    ghost Meaning = { Unit {0} };

    ghost state = { λ _. tt };

    ghost rowed = { λ m _. m };

    ghost ended = { λ m. m };

    fn span(&mut self, row: SpanRow) {
        self.to.span(row);
    }

    fn trace(&mut self) {
        self.to.trace();
    }
}

// Reads a v04 payload from the start of the window, and tells its spans and traces; answers the number of traces, and of the bytes read.
pub fn from_slice<R: Receiver>(window: &[u8], to: &mut R) -> Result<(u64, usize), PayloadFault>
    ensures { Counts result (v04 window.now) }
{
    let mut plain = Plain { to };
    rows::from_slice(window, &mut plain)
}

// The rows of a listing, from what is told of a payload.
ghost use Rattle.std.specs.Prelude.{◌≡◌};
ghost use Rattle.trees.specs.Payloads.{v04};
ghost use Rattle.reading.specs.Making.{Making, held, made_by};
ghost use Rattle.reading.specs.Rows.{HandsOn};

use crate::receiver::RowReceiver;
use crate::v04::read_payload;
use faults::PayloadFault;
use listing::row::SpanRow;
use trees::keys::{IdKey, SignedKey};
use trees::receiver::Receiver;
use trees::step::Step;

// The row of the span that is being read, and what takes it.
#[derive(Drop)]
struct Rows<'r, T> {
    row: SpanRow,
    to: &'r mut T,
}

impl<'r, T> Rows<'r, T> {
    // No field was read yet.
    fn new(to: &'r mut T) -> Rows<'r, T>
        ensures receiver { result.to.now ≡ to.old }
        ensures lender { result.to.ghost_name ≡ to.entry.ghost_name }
    {
        Rows {
            row: SpanRow::default(),
            to,
        }
    }
}

impl<'r, T: RowReceiver> Receiver for Rows<'r, T> {
    ghost Meaning = { Making T.RowReceiver.Meaning };

    ghost state = { λ s. record { row = s.row; whole = T.RowReceiver.state s.to.now; lender = s.to.ghost_name } };

    ghost act = { λ _. made_by held T.RowReceiver.rowed T.RowReceiver.ended };

    // Inlined, so that no step is made that is not looked at here.
    #[inline(always)]
    fn take(&mut self, _window: &[u8], step: Step<'_>) {
        match step {
            Step::BeginSpan => self.row = SpanRow::default(),
            Step::Id(IdKey::TraceId, id) => self.row.trace_id = id,
            Step::Id(IdKey::SpanId, id) => self.row.span_id = id,
            Step::Id(IdKey::ParentId, id) => self.row.parent_id = id,
            Step::Signed(SignedKey::Start, time) => self.row.start = time,
            Step::Signed(SignedKey::Duration, time) => self.row.duration = time,
            Step::Signed(SignedKey::Error, error) => {
                // more than 32 bits are 0 in a row
                self.row.error = i32::try_from(error).unwrap_or(0);
            }
            Step::Error(error) => self.row.error = error,
            Step::EndSpan => self.to.span(self.row),
            Step::EndTrace => self.to.trace(),
            _ => {}
        }
    }
}

// Reads a v04 payload from the start of the window, and hands its rows on; answers the number of traces, and of the bytes read.
pub fn from_slice<T: RowReceiver>(window: &[u8], to: &mut T) -> Result<(u64, usize), PayloadFault>
    ensures { HandsOn T.RowReceiver result to.old to.new (v04 window.now) }
{
    let mut rows = Rows::new(to);
    read_payload(window, &mut rows)
}

// The v04 payload: an array of traces, each an array of spans.
ghost use Rattle.items.specs.declared.fault.DecodeError.TheVariants.{InvalidFormat as OtherFormat};
ghost use Rattle.items.specs.declared.head.Kind.TheVariants.{Array as AnArray};
ghost use Rattle.std.specs.Prelude.{List, length};
ghost use Rattle.faults.specs.Faults.{counted, in_payload, in_span};
ghost use Rattle.items.specs.Buffers.{ReadsOn};
ghost use Rattle.items.specs.Items.{a_length, all_causes};
ghost use Rattle.items.specs.Reads.{raised};
ghost use Rattle.trees.specs.Payloads.{a_span, a_trace, traces_of, v04};
ghost use Rattle.trees.specs.Steps.{tell_span, tell_trace, tell_payload};
ghost use Rattle.trees.specs.Tellings.{Tells, Loads};
ghost use Rattle.trees.specs.Tree.{SpanField};

pub use crate::plain::from_slice;
use crate::span::read_span;
use faults::{PayloadFault, RecordFault};
use items::buffer::Buffer;
use items::fault::DecodeError;
use items::head::Kind;
use trees::receiver::Receiver;
use trees::repeated::{Numbered, read_numbered};
use trees::step::Step;
use trees::telling::Telling;

// Reads how many traces or spans follow, behind so many whole traces.
fn read_count(trace: u64, buf: &mut Buffer<'_>) -> Result<u64, PayloadFault>
    ensures { ReadsOn (λ n. n) result buf.old buf.new (λ bytes at. raised (λ e. counted trace 0 (in_payload e)) (a_length AnArray (all_causes OtherFormat) bytes at)) }
{
    buf.read_count(Kind::Array, DecodeError::InvalidFormat)
        .map_err(|fault| RecordFault::from(fault).counted(trace, 0))
}

// The spans of a trace, before which so many whole traces were read.
#[derive(Clone, Copy, Debug, PartialEq, Eq)]
struct Spans {
    trace: u64,
}

impl Numbered for Spans {
    type Fault = PayloadFault;

    ghost Tree = { List SpanField };

    ghost one = { λ s n bytes at. raised (λ e. counted s.trace n (in_span e)) (a_span bytes at) };

    ghost tell = { λ _ act. tell_span act };

    fn read<R: Receiver>(
        &self,
        number: u64,
        from: &mut Telling<'_, '_, R>,
    ) -> Result<(), PayloadFault> {
        read_span(from).map_err(|fault| RecordFault::from(fault).counted(self.trace, number))
    }
}

// The traces of a payload.
#[derive(Clone, Copy, Debug, PartialEq, Eq)]
struct Traces;

impl Numbered for Traces {
    type Fault = PayloadFault;

    ghost Tree = { List (List SpanField) };

    ghost one = { λ _. a_trace a_span };

    ghost tell = { λ _ act. tell_trace act };

    fn read<R: Receiver>(
        &self,
        number: u64,
        from: &mut Telling<'_, '_, R>,
    ) -> Result<(), PayloadFault> {
        let count = read_count(number, &mut from.buf)?;
        read_numbered(&Spans { trace: number }, count, from)?;
        from.take(Step::EndTrace);
        Ok(())
    }
}

// Reads the traces of a payload and tells them; answers how many there are.
fn read_traces<R: Receiver>(from: &mut Telling<'_, '_, R>) -> Result<u64, PayloadFault>
    ensures { Tells R.Receiver tell_payload length result from.old from.new (traces_of a_span) }
{
    let count = read_count(0, &mut from.buf)?;
    read_numbered(&Traces, count, from)?;
    Ok(count)
}

// The answer is a pair of numbers: a rule of the project.
// Reads a payload from the start of the window and tells it; answers the number of traces, and of the bytes read.
pub fn read_payload<'a, 'r, R: Receiver>(
    window: &'a [u8],
    to: &'r mut R,
) -> Result<(u64, usize), PayloadFault>
    ensures { Loads R.Receiver window.now result to.old to.new (v04 window.now) }
{
    let mut from = Telling::new(Buffer::new(window), to);
    let count = read_traces(&mut from)?;
    Ok((count, from.buf.pos))
}

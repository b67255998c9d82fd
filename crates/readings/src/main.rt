// Reads a line of hexadecimal digits for each payload, and prints what its reading as v04 gives.
#![tactic(auto)]

use faults::PayloadFault;
use hexline::bytes_of;
use reading::receiver::{Receiver, Span};
use reading::v04::from_slice;
use std::fmt;
use std::io::{BufRead, BufReader};

// Sums up the spans that were read.
#[derive(Clone, Copy, Debug, Default, PartialEq, Eq)]
struct Summary {
    spans: u64,
    numbers: u64,
}

impl Summary {
    // Mixes a number into the sum, so that its place counts too.
    fn mix(&mut self, n: u64) {
        self.numbers = self.numbers.wrapping_mul(31).wrapping_add(n);
    }
}

impl Receiver for Summary {
    fn span(&mut self, span: Span) {
        self.spans = self.spans.saturating_add(1);
        self.mix(span.trace_id);
        self.mix(span.span_id);
        self.mix(span.parent_id);
        self.mix(span.start.cast_unsigned());
        self.mix(span.duration.cast_unsigned());
        self.mix(i64::from(span.error).cast_unsigned());
    }

    fn trace(&mut self) {
        self.mix(1);
    }
}

// What a reading gives.
#[derive(Clone, Copy, Debug, PartialEq, Eq)]
struct Read {
    traces: u64,
    consumed: usize,
    summary: Summary,
}

impl fmt::Display for Read {
    fn fmt<W: fmt::Write>(&self, f: &mut fmt::Formatter<W>) -> fmt::Result {
        let Read {
            traces,
            consumed,
            summary: Summary { spans, numbers },
        } = *self;
        write!(
            f,
            "traces {traces} consumed {consumed} spans {spans} numbers {numbers:x}"
        )
    }
}

// Why a payload is not read.
#[derive(Clone, Copy, Debug, PartialEq, Eq)]
struct Refused(PayloadFault);

impl fmt::Display for Refused {
    fn fmt<W: fmt::Write>(&self, f: &mut fmt::Formatter<W>) -> fmt::Result {
        let fault = self.0;
        let cause = fault.cause().number();
        let place = fault.place();
        let record = fault.record().number();
        let trace = fault.trace;
        let span = fault.span;
        write!(
            f,
            "refused {cause} place {place} record {record} trace {trace} span {span}"
        )
    }
}

fn read_payload(payload: &[u8]) -> Result<Read, Refused> {
    let mut summary = Summary::default();
    let (traces, consumed) = from_slice(payload, &mut summary).map_err(Refused)?;
    Ok(Read {
        traces,
        consumed,
        summary,
    })
}

fn main(rt: HostRuntime) -> anyhow::Result<()> {
    let heap = rt.alloc();
    // The loop stands in both table programs: of its three lines a function would take the loop, and each program a closure, so it would be no plainer.
    for line in BufReader::new(heap, rt.stdin())?.lines(heap) {
        let line = line?;
        let payload = bytes_of(heap, line.as_str())?;
        match read_payload(payload.as_slice()) {
            Ok(read) => println!(rt; "{read}")?,
            Err(refused) => println!(rt; "{refused}")?,
        }
    }
    Ok(())
}

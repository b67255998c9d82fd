// Lists the spans of a payload.
use crate::gather::Gatherer;
use crate::line::Line;
use crate::refusal::Refusal;
use listing::parents::list_parents;
use listing::row::SpanRow;
use reading::rows::from_slice;
use std::alloc::Global;

// The most bytes that a payload to be listed may have.
pub const MAX_BYTES: usize = 65_536;

// Appends the lines of one trace.
fn list_trace(
    heap: Global,
    trace: usize,
    rows: &[SpanRow],
    lines: &mut Vec<Line>,
) -> Result<(), Refusal> {
    let parents = list_parents(heap, rows)?;
    let spans = rows.iter().zip(parents.iter()).enumerate();
    lines.extend(spans.map(|(span, (row, parent))| Line {
        trace,
        span,
        row: *row,
        parent: *parent,
    }))?;
    Ok(())
}

// The lines of all traces, each of which lies between two bounds.
fn list_traces(heap: Global, rows: &[SpanRow], bounds: &[usize]) -> Result<Vec<Line>, Refusal> {
    let mut lines = Vec::new(heap);
    for (trace, ends) in bounds.windows(2).enumerate() {
        if let Some(rows) = rows.get(ends[0]..ends[1]) {
            list_trace(heap, trace, rows, &mut lines)?;
        }
    }
    Ok(lines)
}

// A line for each span of a v04 payload.
pub fn list_payload(heap: Global, payload: &[u8]) -> Result<Vec<Line>, Refusal> {
    if payload.len() > MAX_BYTES {
        return Err(Refusal::TooLong);
    }
    let mut gatherer = Gatherer::new(heap)?;
    from_slice(payload, &mut gatherer)?;
    gatherer.check_room()?;
    list_traces(heap, gatherer.rows.as_slice(), gatherer.bounds.as_slice())
}

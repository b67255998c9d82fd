// The lines of a listing.
use listing::row::SpanRow;
use std::fmt;

// The names of the columns.
pub const HEADER: &str = "trace,span,trace_id,span_id,parent_id,start,duration,error,parent";

#[derive(Clone, Copy, Debug, PartialEq, Eq)]
pub struct Line {
    // the number of the trace, and of the span in its trace
    pub trace: usize,
    pub span: usize,
    pub row: SpanRow,
    // the number of the parent in the same trace
    pub parent: Option<usize>,
}

impl fmt::Display for Line {
    fn fmt<W: fmt::Write>(&self, f: &mut fmt::Formatter<W>) -> fmt::Result {
        let trace = self.trace;
        let span = self.span;
        let SpanRow {
            trace_id,
            span_id,
            parent_id,
            start,
            duration,
            error,
        } = self.row;
        write!(
            f,
            "{trace},{span},{trace_id},{span_id},{parent_id},{start},{duration},{error},"
        )?;
        match self.parent {
            Some(parent) => write!(f, "{parent}"),
            None => write!(f, "-1"),
        }
    }
}

// What takes the rows of a payload.
ghost use Rattle.std.specs.Prelude.{◌≡◌};
ghost use Rattle.listing.specs.declared.row.SpanRow.{SpanRow as Row};

use listing::row::SpanRow;

// The name that a receiver knows a row by.
pub use listing::row::SpanRow as Span;

// What takes the row of each span that was read whole, and the end of each trace. No method can fail.
pub trait RowReceiver {
    ghost Meaning: { Type 0 };

    ghost state: { Self → Meaning };

    // What a row makes of the state, and what the end of a trace makes of it.
    ghost rowed: { Meaning → Row → Meaning };

    ghost ended: { Meaning → Meaning };

    // A span was read.
    fn span(&mut self, row: SpanRow)
        ensures { state self.new ≡ rowed (state self.old) row };

    // All spans of a trace were read.
    fn trace(&mut self)
        ensures { state self.new ≡ ended (state self.old) };
}

// What takes them too, and says nothing of what it makes of them. No method can fail.
pub trait Receiver {
    // A span was read.
    fn span(&mut self, span: Span);

    // All spans of a trace were read.
    fn trace(&mut self);
}

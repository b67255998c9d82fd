// One table of names, which says for each how it is written.
ghost use Rattle.std.specs.Prelude.{◌≡◌};
ghost use Rattle.names.specs.Names.{spelled, written_name, is_spelled};

// A name that stands in a record.
#[derive(Clone, Copy, Debug, PartialEq, Eq)]
pub enum Name {
    Service,
    Name,
    Resource,
    TraceId,
    SpanId,
    ParentId,
    Start,
    Duration,
    Error,
    Meta,
    Metrics,
    Type,
    MetaStruct,
    SpanLinks,
    SpanEvents,
    TraceIdHigh,
    Attributes,
    Tracestate,
    Flags,
    TimeUnixNano,
    StringValue,
    BoolValue,
    IntValue,
    DoubleValue,
    ArrayValue,
    Values,
}

// Each name as it is written, in the order of `Name`: a head byte, and the name behind it.
// This stays a table: names and how they are written stand in one constant table, so that one place has both.
const NAMES: [&[u8]; 26] = [
    b"\xA7service",
    b"\xA4name",
    b"\xA8resource",
    b"\xA8trace_id",
    b"\xA7span_id",
    b"\xA9parent_id",
    b"\xA5start",
    b"\xA8duration",
    b"\xA5error",
    b"\xA4meta",
    b"\xA7metrics",
    b"\xA4type",
    b"\xABmeta_struct",
    b"\xAAspan_links",
    b"\xABspan_events",
    b"\xADtrace_id_high",
    b"\xAAattributes",
    b"\xAAtracestate",
    b"\xA5flags",
    b"\xAEtime_unix_nano",
    b"\xACstring_value",
    b"\xAAbool_value",
    b"\xA9int_value",
    b"\xACdouble_value",
    b"\xABarray_value",
    b"\xA6values",
];

impl Name {
    // The name as it is written.
    pub fn encoded(self) -> &'static [u8]
        ensures { result.now ≡ written_name self }
    {
        NAMES[self as usize]
    }

    // The bytes of the name alone.
    pub fn bytes(self) -> &'static [u8]
        ensures { result.now ≡ spelled self }
    {
        &NAMES[self as usize][1..]
    }

    // Whether the bytes are this name.
    pub fn is(self, bytes: &[u8]) -> bool
        ensures { result ≡ is_spelled self bytes.now }
    {
        bytes == self.bytes()
    }
}

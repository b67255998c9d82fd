// The fields of records, by what they hold.
// Beside the keys of crate `names`, which are one by one as the format has them: keys in groups there would not be the format's, and are no plainer.

// The texts of a span.
#[derive(Clone, Copy, Debug, PartialEq, Eq)]
pub enum TextKey {
    Service,
    Name,
    Resource,
    Type,
}

// The numbers of a span without a sign.
#[derive(Clone, Copy, Debug, PartialEq, Eq)]
pub enum IdKey {
    TraceId,
    SpanId,
    ParentId,
}

// The numbers of a span with a sign.
#[derive(Clone, Copy, Debug, PartialEq, Eq)]
pub enum SignedKey {
    Start,
    Duration,
    Error,
}

// Another name of it.
pub use SignedKey as TimeKey;

// The maps of pairs: three of a span, and the attributes of a link.
#[derive(Clone, Copy, Debug, PartialEq, Eq)]
pub enum PairKey {
    Meta,
    Metrics,
    MetaStruct,
    LinkAttributes,
}

// The ids of a link.
#[derive(Clone, Copy, Debug, PartialEq, Eq)]
pub enum LinkIdKey {
    TraceId,
    TraceIdHigh,
    SpanId,
}

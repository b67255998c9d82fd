// The fields of each kind of record, by their names.
ghost use Rattle.std.specs.Prelude.{◌≡◌, ℕ, List, Some, Option as Maybe};
ghost use Rattle.names.specs.declared.table.Name.{Name as AnyName};
ghost use Rattle.names.specs.Keys.{key_with, span_name, span_keys, span_with, link_name, link_keys, link_with, event_name, event_keys, event_with, element_name, element_keys, element_with, attribute_with, values_with};
ghost use Rattle.names.specs.Names.{spelled};
ghost use Rattle.names.specs.Tells.{Tells, found_alone, attribute_name, values_name, attribute_tells, values_tells, WrittenAsText};
ghost use Rattle.std.proofs.Common.{rules};

use crate::table::Name;

// Fields that are found by their names.
pub trait Named: Sized {
    ghost found: { List ℕ → Maybe Self };

    fn from_bytes(bytes: &[u8]) -> Option<Self>
        ensures { result ≡ found bytes.now };
}

// Fields that have a name each, and are found by it and by nothing else.
pub trait NamedAlone: Named {
    ghost named: { Self → AnyName };

    ghost tells: { Tells named Self.found };
}

// A field of a record that has a list of them, each of a name of its own.
// `name` and `all` stay apart: in one table of pairs the name of a field would be searched for and could be missing, where a match has to name each.
pub trait Key: Copy + 'static {
    ghost key_name: { Self → AnyName };

    ghost keys: { List Self };

    fn name(self) -> Name
        ensures { result ≡ key_name self };

    // The fields of the record.
    fn all() -> &'static [Self]
        ensures { result.now ≡ keys };

    // Each field is the first of its name.
    ghost first: { (k : Self) → key_with key_name (spelled (key_name k)) keys ≡ Some k };
}

impl<K: Key> Named for K {
    ghost found = { λ t. key_with K.key_name t K.keys };

    #[tactic(auto, unfolding(crate::specs::Keys::key_with))]
    fn from_bytes(bytes: &[u8]) -> Option<K> {
        K::all().iter().copied().find(|key| key.name().is(bytes))
    }
}

impl<K: Key> NamedAlone for K {
    ghost named = { K.key_name };

    ghost tells = { record { by_name = K.first; alone = found_alone K.key_name K.keys } };
}

// The fields of a span.
#[derive(Clone, Copy, Debug, PartialEq, Eq)]
pub enum SpanKey {
    Service,
    Name,
    Resource,
    TraceId,
    SpanId,
    ParentId,
    Start,
    Duration,
    Error,
    Meta,
    Metrics,
    Type,
    MetaStruct,
    SpanLinks,
    SpanEvents,
}

impl Key for SpanKey {
    ghost key_name = { span_name };

    ghost keys = { span_keys };

    fn name(self) -> Name {
        match self {
            SpanKey::Service => Name::Service,
            SpanKey::Name => Name::Name,
            SpanKey::Resource => Name::Resource,
            SpanKey::TraceId => Name::TraceId,
            SpanKey::SpanId => Name::SpanId,
            SpanKey::ParentId => Name::ParentId,
            SpanKey::Start => Name::Start,
            SpanKey::Duration => Name::Duration,
            SpanKey::Error => Name::Error,
            SpanKey::Meta => Name::Meta,
            SpanKey::Metrics => Name::Metrics,
            SpanKey::Type => Name::Type,
            SpanKey::MetaStruct => Name::MetaStruct,
            SpanKey::SpanLinks => Name::SpanLinks,
            SpanKey::SpanEvents => Name::SpanEvents,
        }
    }

    fn all() -> &'static [SpanKey] {
        &[
            SpanKey::Service,
            SpanKey::Name,
            SpanKey::Resource,
            SpanKey::TraceId,
            SpanKey::SpanId,
            SpanKey::ParentId,
            SpanKey::Start,
            SpanKey::Duration,
            SpanKey::Error,
            SpanKey::Meta,
            SpanKey::Metrics,
            SpanKey::Type,
            SpanKey::MetaStruct,
            SpanKey::SpanLinks,
            SpanKey::SpanEvents,
        ]
    }

    ghost first = { unfold key_with in Prim.search rules };
}

// The fields of a span link.
#[derive(Clone, Copy, Debug, PartialEq, Eq)]
pub enum SpanLinkKey {
    TraceId,
    TraceIdHigh,
    SpanId,
    Attributes,
    Tracestate,
    Flags,
}

impl Key for SpanLinkKey {
    ghost key_name = { link_name };

    ghost keys = { link_keys };

    fn name(self) -> Name {
        match self {
            SpanLinkKey::TraceId => Name::TraceId,
            SpanLinkKey::TraceIdHigh => Name::TraceIdHigh,
            SpanLinkKey::SpanId => Name::SpanId,
            SpanLinkKey::Attributes => Name::Attributes,
            SpanLinkKey::Tracestate => Name::Tracestate,
            SpanLinkKey::Flags => Name::Flags,
        }
    }

    fn all() -> &'static [SpanLinkKey] {
        &[
            SpanLinkKey::TraceId,
            SpanLinkKey::TraceIdHigh,
            SpanLinkKey::SpanId,
            SpanLinkKey::Attributes,
            SpanLinkKey::Tracestate,
            SpanLinkKey::Flags,
        ]
    }

    ghost first = { unfold key_with in Prim.search rules };
}

// The fields of a span event.
#[derive(Clone, Copy, Debug, PartialEq, Eq)]
pub enum SpanEventKey {
    TimeUnixNano,
    Name,
    Attributes,
}

impl Key for SpanEventKey {
    ghost key_name = { event_name };

    ghost keys = { event_keys };

    fn name(self) -> Name {
        match self {
            SpanEventKey::TimeUnixNano => Name::TimeUnixNano,
            SpanEventKey::Name => Name::Name,
            SpanEventKey::Attributes => Name::Attributes,
        }
    }

    fn all() -> &'static [SpanEventKey] {
        &[
            SpanEventKey::TimeUnixNano,
            SpanEventKey::Name,
            SpanEventKey::Attributes,
        ]
    }

    ghost first = { unfold key_with in Prim.search rules };
}

// The fields of an element of an array value.
#[derive(Clone, Copy, Debug, PartialEq, Eq)]
pub enum AttributeArrayKey {
    Type,
    StringValue,
    BoolValue,
    IntValue,
    DoubleValue,
}

impl Key for AttributeArrayKey {
    ghost key_name = { element_name };

    ghost keys = { element_keys };

    fn name(self) -> Name {
        match self {
            AttributeArrayKey::Type => Name::Type,
            AttributeArrayKey::StringValue => Name::StringValue,
            AttributeArrayKey::BoolValue => Name::BoolValue,
            AttributeArrayKey::IntValue => Name::IntValue,
            AttributeArrayKey::DoubleValue => Name::DoubleValue,
        }
    }

    fn all() -> &'static [AttributeArrayKey] {
        &[
            AttributeArrayKey::Type,
            AttributeArrayKey::StringValue,
            AttributeArrayKey::BoolValue,
            AttributeArrayKey::IntValue,
            AttributeArrayKey::DoubleValue,
        ]
    }

    ghost first = { unfold key_with in Prim.search rules };
}

// The fields of an attribute: those of an element, and an array.
#[derive(Clone, Copy, Debug, PartialEq, Eq)]
pub enum AttributeAnyKey {
    Single(AttributeArrayKey),
    ArrayValue,
}

impl Named for AttributeAnyKey {
    ghost found = { attribute_with };

    fn from_bytes(bytes: &[u8]) -> Option<AttributeAnyKey> {
        if Name::ArrayValue.is(bytes) {
            Some(AttributeAnyKey::ArrayValue)
        } else {
            AttributeArrayKey::from_bytes(bytes).map(AttributeAnyKey::Single)
        }
    }
}

impl NamedAlone for AttributeAnyKey {
    ghost named = { attribute_name };

    ghost tells = { attribute_tells };
}

// The only field of an array.
#[derive(Clone, Copy, Debug, PartialEq, Eq)]
pub struct ValuesKey;

impl Named for ValuesKey {
    ghost found = { values_with };

    fn from_bytes(bytes: &[u8]) -> Option<ValuesKey> {
        Name::Values.is(bytes).then_some(ValuesKey)
    }
}

impl NamedAlone for ValuesKey {
    ghost named = { values_name };

    ghost tells = { values_tells };
}

// The law of a kind of fields.
fn tells<K: NamedAlone>()
    ensures { Tells K.named K.found }
{}

// Each field is found by its own name and by nothing else, and each name is written as a text.
pub fn names_tell()
    ensures span { Tells span_name span_with }
    ensures link { Tells link_name link_with }
    ensures event { Tells event_name event_with }
    ensures element { Tells element_name element_with }
    ensures attribute { Tells attribute_name attribute_with }
    ensures values { Tells values_name values_with }
    ensures written { WrittenAsText }
{
    tells::<SpanKey>();
    tells::<SpanLinkKey>();
    tells::<SpanEventKey>();
    tells::<AttributeArrayKey>();
    tells::<AttributeAnyKey>();
    tells::<ValuesKey>();
}

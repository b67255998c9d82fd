// The steps of a reading, one for each thing that was read, in the order of the payload.
ghost use Rattle.std.specs.Prelude.{◌≡◌};
ghost use Rattle.trees.specs.Steps.{type_code, single_of};
ghost use Rattle.trees.specs.Tree.{type_number};

use crate::keys::{IdKey, LinkIdKey, PairKey, SignedKey, TextKey};
use items::item::Item;
use items::part::Part;

// The type of an attribute's value, by its number.
#[derive(Clone, Copy, Debug, PartialEq, Eq)]
pub enum ValueType {
    String = 0,
    Boolean = 1,
    Integer = 2,
    Double = 3,
    Array = 4,
}

impl ValueType {
    // The number of the type.
    pub fn number(self) -> u8
        ensures { result ≡ type_code self }
    {
        self as u8
    }
}

// A single value of an attribute, which may be an element of an array.
#[derive(Clone, Copy, Debug, PartialEq, Eq)]
pub enum AttributeArrayValue<'a> {
    String(Part<'a>),
    Boolean(bool),
    Integer(i64),
    // a double by its 64 bits
    Double(u64),
}

impl<'a> AttributeArrayValue<'a> {
    pub fn value_type(self) -> ValueType
        ensures { type_code result ≡ type_number (single_of self.entry) }
    {
        match self {
            AttributeArrayValue::String(_) => ValueType::String,
            AttributeArrayValue::Boolean(_) => ValueType::Boolean,
            AttributeArrayValue::Integer(_) => ValueType::Integer,
            AttributeArrayValue::Double(_) => ValueType::Double,
        }
    }
}

// A step. Texts and byte parts borrow the window.
#[derive(Clone, Copy, Debug, PartialEq, Eq)]
pub enum Step<'a> {
    // a text of the dictionary
    Entry(Part<'a>),
    // a text of the span; none for null
    Text(TextKey, Option<Item<'a>>),
    // a pair of a map
    Pair(PairKey, Item<'a>, Item<'a>),
    Tracestate(Part<'a>),
    EventName(Part<'a>),
    // the key of an attribute
    Attribute(Part<'a>),
    // an attribute's value, or an element of it
    Value(AttributeArrayValue<'a>),
    BeginSpan,
    Id(IdKey, u64),
    Signed(SignedKey, i64),
    // the error, in 32 bits
    Error(i32),
    BeginPairs(PairKey),
    BeginLinks,
    BeginLink,
    LinkId(LinkIdKey, u64),
    Flags(u32),
    EndLink,
    BeginEvents,
    BeginEvent,
    Time(u64),
    BeginAttributes,
    // an attribute's values are whole; its type number
    EndAttribute(u8),
    EndEvent,
    EndSpan,
    EndTrace,
}

// What the first byte of an item announces.
ghost use Rattle.std.specs.Prelude.{◌≡◌};
ghost use Rattle.items.specs.Items.{head_of};

use msgpack::marker::{Marker, Width};

// What a length is the length of.
#[derive(Clone, Copy, Debug, PartialEq, Eq)]
pub enum Kind {
    Text,
    Bytes,
    Array,
    Map,
}

#[derive(Clone, Copy, Debug, PartialEq, Eq)]
pub(crate) enum Head {
    Null,
    Truth(bool),
    // a number from 0, or below 0, in the first byte
    Positive(u8),
    Negative(u8),
    // a number of so many bytes behind it
    Unsigned(Width),
    Signed(Width),
    Float(Width),
    // a length in the first byte, or behind it
    Length(Kind, u8),
    LengthBehind(Kind, Width),
    // never used, and extension types
    Other,
}

impl From<Marker> for Head {
    ghost from_gives = { λ marker head. head ≡ head_of marker };

    fn from(marker: Marker) -> Head {
        match marker {
            Marker::PositiveFixint(b) => Head::Positive(b),
            Marker::FixMap(n) => Head::Length(Kind::Map, n),
            Marker::FixArray(n) => Head::Length(Kind::Array, n),
            Marker::FixStr(n) => Head::Length(Kind::Text, n),
            Marker::Nil => Head::Null,
            Marker::NeverUsed => Head::Other,
            Marker::False => Head::Truth(false),
            Marker::True => Head::Truth(true),
            Marker::Bin(width) => Head::LengthBehind(Kind::Bytes, width),
            Marker::Ext(_) => Head::Other,
            Marker::Float(width) => Head::Float(width),
            Marker::Uint(width) => Head::Unsigned(width),
            Marker::Int(width) => Head::Signed(width),
            Marker::FixExt(_) => Head::Other,
            Marker::Str(width) => Head::LengthBehind(Kind::Text, width),
            Marker::Array(width) => Head::LengthBehind(Kind::Array, width),
            Marker::Map(width) => Head::LengthBehind(Kind::Map, width),
            Marker::NegativeFixint(b) => Head::Negative(b),
        }
    }
}

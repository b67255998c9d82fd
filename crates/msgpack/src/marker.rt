// The first byte of an item, by MessagePack's format overview.
ghost use Rattle.std.specs.Prelude.{◌≡◌};
ghost use Rattle.msgpack.specs.Numbers.{wide};
ghost use Rattle.msgpack.specs.Overview.{marker, DecidesEach, Rises, OneRow};

// How many bytes a length or a number takes.
#[derive(Clone, Copy, Debug, PartialEq, Eq)]
pub enum Width {
    One = 1,
    Two = 2,
    Four = 4,
    Eight = 8,
}

impl Width {
    pub fn bytes(self) -> usize
        ensures { result ≡ wide self }
    {
        self as usize
    }
}

// One `Width` for all, though `Float`, `Str`, `Array` and `Map` have fewer: a type of fewer widths for each would need its own number of bytes, and no first byte leads to the others.
#[derive(Clone, Copy, Debug, PartialEq, Eq)]
pub enum Marker {
    PositiveFixint(u8),
    FixMap(u8),
    FixArray(u8),
    FixStr(u8),
    Nil,
    NeverUsed,
    False,
    True,
    Bin(Width),
    Ext(Width),
    Float(Width),
    Uint(Width),
    Int(Width),
    FixExt(u8),
    Str(Width),
    Array(Width),
    Map(Width),
    NegativeFixint(u8),
}

impl From<u8> for Marker {
    ghost from_gives = { λ byte m. m ≡ marker byte };

    // The cases stand in the order of the overview's rows.
    fn from(byte: u8) -> Marker {
        match byte {
            0x00..=0x7f => Marker::PositiveFixint(byte),
            0x80..=0x8f => Marker::FixMap(byte - 0x80),
            0x90..=0x9f => Marker::FixArray(byte - 0x90),
            0xa0..=0xbf => Marker::FixStr(byte - 0xa0),
            0xc0 => Marker::Nil,
            0xc1 => Marker::NeverUsed,
            0xc2 => Marker::False,
            0xc3 => Marker::True,
            0xc4 => Marker::Bin(Width::One),
            0xc5 => Marker::Bin(Width::Two),
            0xc6 => Marker::Bin(Width::Four),
            0xc7 => Marker::Ext(Width::One),
            0xc8 => Marker::Ext(Width::Two),
            0xc9 => Marker::Ext(Width::Four),
            0xca => Marker::Float(Width::Four),
            0xcb => Marker::Float(Width::Eight),
            0xcc => Marker::Uint(Width::One),
            0xcd => Marker::Uint(Width::Two),
            0xce => Marker::Uint(Width::Four),
            0xcf => Marker::Uint(Width::Eight),
            0xd0 => Marker::Int(Width::One),
            0xd1 => Marker::Int(Width::Two),
            0xd2 => Marker::Int(Width::Four),
            0xd3 => Marker::Int(Width::Eight),
            0xd4 => Marker::FixExt(1),
            0xd5 => Marker::FixExt(2),
            0xd6 => Marker::FixExt(4),
            0xd7 => Marker::FixExt(8),
            0xd8 => Marker::FixExt(16),
            0xd9 => Marker::Str(Width::One),
            0xda => Marker::Str(Width::Two),
            0xdb => Marker::Str(Width::Four),
            0xdc => Marker::Array(Width::Two),
            0xdd => Marker::Array(Width::Four),
            0xde => Marker::Map(Width::Two),
            0xdf => Marker::Map(Width::Four),
            0xe0..=0xff => Marker::NegativeFixint(byte),
        }
    }
}

// Each of the 256 first bytes is decided by one row of the overview alone.
pub fn overview_decides()
    ensures tells { DecidesEach }
    ensures rises { Rises }
    ensures one { OneRow }
{}

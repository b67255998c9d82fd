// The first bytes of the forms of a number.
ghost use Rattle.std.specs.Prelude.{◌+◌, ◌≤◌};

// A length below the limit stands in the first byte, above the base.
#[derive(Clone, Copy, Debug, PartialEq, Eq)]
pub struct Near {
    pub limit: u32,
    pub base: u8,
    pub ghost fits: { base + limit ≤ 256 },
}

// Where numbers have no form in the first byte, or none of one or of eight bytes behind it, there is none here.
#[derive(Clone, Copy, Debug, PartialEq, Eq)]
pub struct FirstBytes {
    pub near: Option<Near>,
    pub one: Option<u8>,
    pub two: u8,
    pub four: u8,
    pub eight: Option<u8>,
}

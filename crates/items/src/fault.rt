// What is wrong with an item, and where.
ghost use Rattle.std.specs.Prelude.{◌≡◌};
ghost use Rattle.items.specs.Faults.{cause_number};

// The cause of a fault, by its number.
#[derive(Clone, Copy, Debug, PartialEq, Eq)]
pub enum DecodeError {
    InvalidConversion = 1,
    InvalidType = 2,
    InvalidFormat = 3,
    IOError = 4,
    Utf8Error = 5,
}

impl DecodeError {
    // The number of the cause.
    pub fn number(self) -> u8
        ensures { result ≡ cause_number self }
    {
        self as u8
    }

    // The fault with this cause, of the item at a place.
    pub fn at(self, place: usize) -> ItemFault
        ensures { result ≡ record { cause = self; place = place } }
    {
        ItemFault { cause: self, place }
    }
}

// An item's fault: its cause, and the place of the item's first byte in the window.
#[derive(Clone, Copy, Debug, PartialEq, Eq)]
pub struct ItemFault {
    pub cause: DecodeError,
    pub place: usize,
}

// Numbers: every integer and float form.
ghost use Rattle.std.specs.Prelude.{◌≡◌, ◌^◌, ◌<◌};
ghost use Rattle.std.specs.Option.{option_map};
ghost use Rattle.msgpack.specs.Numbers.{wide, twos};
ghost use Rattle.items.specs.Items.{a_number, a_double, double_by, double_of};
ghost use Rattle.items.specs.Ranges.{number_in, integer_in};
ghost use Rattle.items.specs.Buffers.{Reads, Sees};

use crate::behind::Behind;
use crate::buffer::Buffer;
use crate::fault::{DecodeError, ItemFault};
use crate::head::Head;
use crate::integer::IntegerRange;
use msgpack::double::{signed_bits, single_bits, unsigned_bits};
use msgpack::marker::Width;

#[derive(Clone, Copy, Debug, PartialEq, Eq)]
pub enum Number {
    Unsigned(u64),
    Signed(i64),
    // a double by its 64 bits
    Float(u64),
}

impl Number {
    // The double of this number, by its 64 bits.
    pub fn double(self) -> u64
        ensures { result ≡ double_by self }
    {
        match self {
            Number::Unsigned(n) => unsigned_bits(n),
            Number::Signed(n) => signed_bits(n),
            Number::Float(bits) => bits,
        }
    }

    // The integer of this number, where it has one of the kind asked.
    pub fn integer<T: IntegerRange>(self) -> Option<T>
        ensures { option_map T.IntegerRange.worth result ≡ number_in T.IntegerRange.range self }
    {
        let n = match self {
            Number::Unsigned(n) => i128::from(n),
            Number::Signed(n) => i128::from(n),
            Number::Float(_) => return None,
        };
        T::try_from(n).ok()
    }
}

// The two's complement number of these bits.
// Four arms, each std's cast of one width: a shift up and back would serve all widths, but no reader sees at once that it copies the sign.
fn signed(width: Width, bits: u64) -> i64
    requires { bits < 256 ^ wide width }
    ensures { result ≡ twos (wide width) bits }
{
    match width {
        Width::One => i64::from((bits as u8).cast_signed()),
        Width::Two => i64::from((bits as u16).cast_signed()),
        Width::Four => i64::from((bits as u32).cast_signed()),
        Width::Eight => bits.cast_signed(),
    }
}

// The double of a float of these bits.
fn float(width: Width, bits: u64) -> u64
    requires { bits < 256 ^ wide width }
    ensures { result ≡ double_of width bits }
{
    match width {
        Width::One | Width::Two | Width::Four => single_bits(bits as u32),
        Width::Eight => bits,
    }
}

impl<'a> Buffer<'a> {
    // The number that the next item is, which is not passed over.
    fn next_number(&self) -> Result<Behind<Number>, ItemFault>
        ensures { Sees (λ n. n) result self.now a_number }
    {
        let head = self.head().ok_or(self.fault(DecodeError::InvalidFormat))?;
        let next = self.pos + 1;
        let short = DecodeError::IOError;
        match head {
            Head::Positive(b) => Ok(Behind {
                value: Number::Unsigned(u64::from(b)),
                next,
            }),
            Head::Negative(b) => Ok(Behind {
                value: Number::Signed(i64::from(b.cast_signed())),
                next,
            }),
            Head::Unsigned(width) => Ok(self.content(width, short)?.map(Number::Unsigned)),
            Head::Signed(width) => Ok(
                self.content(width, short)?
                    .map(|n| Number::Signed(signed(width, n))),
            ),
            Head::Float(width) => Ok(
                self.content(width, short)?
                    .map(|n| Number::Float(float(width, n))),
            ),
            _ => Err(self.fault(DecodeError::InvalidType)),
        }
    }

    pub fn read_number(&mut self) -> Result<Number, ItemFault>
        ensures { Reads (λ n. n) result self.old self.new a_number }
    {
        let number = self.next_number()?;
        Ok(self.pass(number))
    }

    // The integer of the kind asked that the next item is, which is not passed over.
    pub(crate) fn next_integer<T: IntegerRange>(&self) -> Result<Behind<T>, ItemFault>
        ensures { Sees T.IntegerRange.worth result self.now (integer_in T.IntegerRange.range) }
    {
        let number = self.next_number()?;
        let value = number
            .value
            .integer()
            .ok_or(self.fault(DecodeError::InvalidConversion))?;
        Ok(Behind {
            value,
            next: number.next,
        })
    }

    // Reads a number as an integer of the kind asked.
    pub fn read_integer<T: IntegerRange>(&mut self) -> Result<T, ItemFault>
        ensures { Reads T.IntegerRange.worth result self.old self.new (integer_in T.IntegerRange.range) }
    {
        let integer = self.next_integer()?;
        Ok(self.pass(integer))
    }

    // Reads a number as a double, by its 64 bits.
    pub fn read_double(&mut self) -> Result<u64, ItemFault>
        ensures { Reads (λ n. n) result self.old self.new a_double }
    {
        let number = self.read_number()?;
        Ok(number.double())
    }
}

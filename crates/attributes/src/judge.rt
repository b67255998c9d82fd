// Whether the two fields of an attribute, or of an element, make one.
ghost use Rattle.std.specs.Prelude.{◌≡◌, ℕ};
ghost use Rattle.std.specs.Option.{option_map};
ghost use Rattle.trees.specs.Records.{verdict, alike, also};
ghost use Rattle.trees.specs.Steps.{type_code, later as last_of};
ghost use Rattle.attributes.specs.Fields.{given_of, valued_of, coded};

use items::fault::DecodeError;
use trees::step::ValueType;

// What has a type number: a type, and a number for itself, also one that no type has.
pub trait Typed: Copy {
    ghost code: { Self → ℕ };

    fn number(self) -> u8
        ensures { result ≡ code self };
}

impl Typed for ValueType {
    ghost code = { type_code };

    fn number(self) -> u8 {
        ValueType::number(self)
    }
}

impl Typed for u8 {
    ghost code = { λ n. n };

    fn number(self) -> u8 {
        self
    }
}

// What a field was: a type number, or a value of a type.
// An enum of its own: neither is an error or a want of the other.
#[derive(Clone, Copy, Debug, PartialEq, Eq)]
pub enum Field<V = u8> {
    Given(u8),
    Valued(V),
}

impl<V: Typed> Field<V> {
    fn given(self) -> Option<u8>
        ensures { result ≡ given_of self }
    {
        match self {
            Field::Given(n) => Some(n),
            Field::Valued(_) => None,
        }
    }

    fn valued(self) -> Option<V>
        ensures { result ≡ valued_of self }
    {
        match self {
            Field::Given(_) => None,
            Field::Valued(value) => Some(value),
        }
    }
}

// A value and a type number have to be there, and the number has to be the value's.
// By `let .. else`, so that each is refused where it is missing: a rule of the project.
fn agree<V: Typed>(value: Option<V>, given: Option<u8>) -> Result<V, DecodeError>
    ensures { coded V.code result ≡ verdict (option_map V.code value) given }
{
    let Some(value) = value else {
        return Err(DecodeError::InvalidFormat);
    };
    let Some(given) = given else {
        return Err(DecodeError::InvalidFormat);
    };
    if given != value.number() {
        return Err(DecodeError::InvalidType);
    }
    Ok(value)
}

// The type of the value in two fields; of two fields of one kind the later counts.
pub fn judge<V: Typed>(a: Field<V>, b: Field<V>) -> Result<V, DecodeError>
    ensures { coded V.code result ≡ verdict (option_map V.code (last_of (valued_of a) (valued_of b))) (last_of (given_of a) (given_of b)) }
{
    agree(b.valued().or(a.valued()), b.given().or(a.given()))
}

// The same of an element, which has to be of the type of the first; judged last.
pub fn judge_element<V: Typed>(a: Field<V>, b: Field<V>, first: Option<V>) -> Result<V, DecodeError>
    ensures { coded V.code result ≡ also (verdict (option_map V.code (last_of (valued_of a) (valued_of b))) (last_of (given_of a) (given_of b))) (alike (option_map V.code first)) }
{
    let value = judge(a, b)?;
    match first {
        Some(other) if other.number() != value.number() => Err(DecodeError::InvalidType),
        _ => Ok(value),
    }
}

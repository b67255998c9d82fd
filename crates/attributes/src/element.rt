// Elements of an array, and the fields that they share with attributes.
ghost use Rattle.std.specs.Prelude.{Some};
ghost use Rattle.std.specs.Option.{option_map};
ghost use Rattle.items.specs.Reads.{nothing, fold};
ghost use Rattle.trees.specs.Records.{element_field_by, an_element_field, an_element, element_type, elements};
ghost use Rattle.trees.specs.Steps.{type_code, tell_element_field, tell_element};
ghost use Rattle.trees.specs.Tellings.{Tells};
ghost use Rattle.trees.specs.Tree.{Element};
ghost use Rattle.attributes.specs.Fields.{element_field, coded};

use crate::judge::{Field, judge_element};
use faults::ArrayValueFault;
use items::fault::{DecodeError, ItemFault};
use maps::key::{read_fields, read_key};
use names::keys::AttributeArrayKey;
use trees::receiver::Receiver;
use trees::repeated::{Repeated, read_times};
use trees::step::{AttributeArrayValue, Step, ValueType};
use trees::telling::Telling;

// Reads a type number or a value, by its name, and tells the value.
pub fn read_value<R: Receiver>(
    key: AttributeArrayKey,
    from: &mut Telling<'_, '_, R>,
) -> Result<Field<ValueType>, ItemFault>
    ensures { Tells R.Receiver tell_element_field element_field result from.old from.new (element_field_by key) }
{
    let value = match key {
        AttributeArrayKey::Type => {
            let given: u8 = from.buf.read_integer()?;
            return Ok(Field::Given(given));
        }
        AttributeArrayKey::StringValue => AttributeArrayValue::String(from.buf.read_text()?),
        AttributeArrayKey::BoolValue => AttributeArrayValue::Boolean(
            from.buf.read_boolean(DecodeError::InvalidType)?,
        ),
        AttributeArrayKey::IntValue => AttributeArrayValue::Integer(from.buf.read_integer()?),
        AttributeArrayKey::DoubleValue => AttributeArrayValue::Double(from.buf.read_double()?),
    };
    from.take(Step::Value(value));
    Ok(Field::Valued(value.value_type()))
}

fn read_element_field<R: Receiver>(
    from: &mut Telling<'_, '_, R>,
) -> Result<Field<ValueType>, ItemFault>
    ensures { Tells R.Receiver tell_element_field element_field result from.old from.new an_element_field }
{
    let key: AttributeArrayKey = read_key(&mut from.buf)?;
    read_value(key, from)
}

// Reads one element, which has to be of the type of the first; answers its type.
fn read_element<R: Receiver>(
    first: Option<ValueType>,
    from: &mut Telling<'_, '_, R>,
) -> Result<ValueType, ArrayValueFault>
    ensures { Tells R.Receiver tell_element element_type (coded type_code result) from.old from.new (an_element (option_map type_code first)) }
{
    let place = from.buf.pos;
    read_fields(&mut from.buf, 2)?;
    let a = read_element_field(from)?;
    let b = read_element_field(from)?;
    // By `match`, as in `read_attribute`.
    match judge_element(a, b, first) {
        Ok(kind) => Ok(kind),
        Err(cause) => Err(ArrayValueFault(ItemFault { cause, place })),
    }
}

// The elements of an array behind the first, whose type they share.
#[derive(Clone, Copy, Debug, PartialEq, Eq)]
pub struct Elements {
    pub of: ValueType,
}

impl Repeated for Elements {
    type Fault = ArrayValueFault;

    ghost Tree = { Element };

    ghost one = { λ s. an_element (Some (type_code s.of)) };

    ghost tell = { λ _ act. tell_element act };

    fn read<R: Receiver>(&self, from: &mut Telling<'_, '_, R>) -> Result<(), ArrayValueFault> {
        read_element(Some(self.of), from)?;
        Ok(())
    }
}

// Reads so many elements, each of the type of the first.
pub fn read_elements<R: Receiver>(
    count: u64,
    from: &mut Telling<'_, '_, R>,
) -> Result<(), ArrayValueFault>
    ensures { Tells R.Receiver (λ act. fold (tell_element act)) nothing result from.old from.new (elements count) }
{
    if count == 0 {
        return Ok(());
    }
    let of = read_element(None, from)?;
    read_times(&Elements { of }, count - 1, from)
}

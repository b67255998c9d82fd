// Attributes, told to a receiver.
ghost use Rattle.std.specs.Prelude.{[]};
ghost use Rattle.items.specs.Parts.{piece_of};
ghost use Rattle.items.specs.Reads.{nothing, fold};
ghost use Rattle.trees.specs.Records.{values_of, nullable, attribute_field_by, an_attribute_field, attribute_value};
ghost use Rattle.trees.specs.Steps.{tell_element, tell_attribute_field, tell_attribute};
ghost use Rattle.trees.specs.Tellings.{Tells};
ghost use Rattle.attributes.specs.Fields.{attribute_field};

use crate::element::{read_elements, read_value};
use crate::judge::{Field, judge};
use faults::AttributeFault;
use items::fault::{DecodeError, ItemFault};
use items::head::Kind;
use items::part::Part;
use maps::key::{read_fields, read_key};
use names::keys::{AttributeAnyKey, ValuesKey};
use trees::receiver::Receiver;
use trees::step::{Step, ValueType};
use trees::telling::Telling;

// Reads an array: a map with the one field `values`, which holds the elements.
fn read_values<R: Receiver>(from: &mut Telling<'_, '_, R>) -> Result<(), AttributeFault>
    ensures { Tells R.Receiver (λ act. fold (tell_element act)) nothing result from.old from.new values_of }
{
    read_fields(&mut from.buf, 1)?;
    let _values: ValuesKey = read_key(&mut from.buf)?;
    let count = from.buf.read_count(Kind::Array, DecodeError::InvalidType)?;
    read_elements(count, from)?;
    Ok(())
}

// Reads an array, or null for an empty one.
fn read_array<R: Receiver>(from: &mut Telling<'_, '_, R>) -> Result<(), AttributeFault>
    ensures { Tells R.Receiver (λ act. fold (tell_element act)) nothing result from.old from.new (nullable [] values_of) }
{
    if from.buf.handle_null_marker() {
        return Ok(());
    }
    read_values(from)
}

// Reads a field by its name.
fn read_by_key<R: Receiver>(
    key: AttributeAnyKey,
    from: &mut Telling<'_, '_, R>,
) -> Result<Field<ValueType>, AttributeFault>
    ensures { Tells R.Receiver tell_attribute_field attribute_field result from.old from.new (attribute_field_by key) }
{
    match key {
        AttributeAnyKey::Single(key) => Ok(read_value(key, from)?),
        AttributeAnyKey::ArrayValue => {
            read_array(from)?;
            Ok(Field::Valued(ValueType::Array))
        }
    }
}

fn read_field<R: Receiver>(
    from: &mut Telling<'_, '_, R>,
) -> Result<Field<ValueType>, AttributeFault>
    ensures { Tells R.Receiver tell_attribute_field attribute_field result from.old from.new an_attribute_field }
{
    let key: AttributeAnyKey = read_key(&mut from.buf)?;
    read_by_key(key, from)
}

// Reads the attribute under a key.
// `read_element` has the same two fields with other keys, faults and judge: one function would take all three as parameters, and is no plainer.
pub fn read_attribute<R: Receiver>(
    key: Part<'_>,
    from: &mut Telling<'_, '_, R>,
) -> Result<(), AttributeFault>
    ensures { Tells R.Receiver tell_attribute nothing result from.old from.new (attribute_value (piece_of key.entry)) }
{
    let place = from.buf.pos;
    from.take(Step::Attribute(key));
    read_fields(&mut from.buf, 2)?;
    let a = read_field(from)?;
    let b = read_field(from)?;
    // By `match`: with `map_err` a closure stands between judgement and answer, and the proof did not close.
    match judge(a, b) {
        Ok(kind) => {
            from.take(Step::EndAttribute(kind.number()));
            Ok(())
        }
        Err(cause) => Err(AttributeFault::Own(ItemFault { cause, place })),
    }
}

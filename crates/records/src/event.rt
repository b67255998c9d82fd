// Events, with their attributes.
ghost use Rattle.std.specs.Prelude.{List};
ghost use Rattle.items.specs.Reads.{nothing};
ghost use Rattle.trees.specs.Records.{an_attribute, attributes_map, event_field_by, an_event_field, an_event};
ghost use Rattle.trees.specs.Steps.{tell_attribute, tell_attributes, tell_event_field, tell_event};
ghost use Rattle.trees.specs.Tellings.{Tells};
ghost use Rattle.trees.specs.Tree.{Attribute, EventField};

use attributes::attribute::read_attribute;
use faults::EventFault;
use items::fault::DecodeError;
use items::head::Kind;
use maps::key::read_key;
use names::keys::SpanEventKey;
use trees::receiver::Receiver;
use trees::repeated::{Repeated, read_times};
use trees::step::Step;
use trees::telling::Telling;

// The attributes of an event, each under its key.
#[derive(Clone, Copy, Debug, PartialEq, Eq)]
pub struct Attributes;

impl Repeated for Attributes {
    type Fault = EventFault;

    ghost Tree = { Attribute };

    ghost one = { λ _. an_attribute };

    ghost tell = { λ _ act. tell_attribute act };

    fn read<R: Receiver>(&self, from: &mut Telling<'_, '_, R>) -> Result<(), EventFault> {
        let key = from.buf.read_text()?;
        read_attribute(key, from)?;
        Ok(())
    }
}

// Reads the map of attributes.
fn read_attributes<R: Receiver>(from: &mut Telling<'_, '_, R>) -> Result<(), EventFault>
    ensures { Tells R.Receiver tell_attributes nothing result from.old from.new attributes_map }
{
    let count = from.buf.read_count(Kind::Map, DecodeError::InvalidType)?;
    from.take(Step::BeginAttributes);
    read_times(&Attributes, count, from)
}

// Reads a field by its name.
fn read_by_key<R: Receiver>(
    key: SpanEventKey,
    from: &mut Telling<'_, '_, R>,
) -> Result<(), EventFault>
    ensures { Tells R.Receiver tell_event_field nothing result from.old from.new (event_field_by key) }
{
    match key {
        SpanEventKey::TimeUnixNano => {
            let time: u64 = from.buf.read_integer()?;
            from.take(Step::Time(time));
        }
        SpanEventKey::Name => {
            let name = from.buf.read_text()?;
            from.take(Step::EventName(name));
        }
        SpanEventKey::Attributes => {
            read_attributes(from)?;
        }
    }
    Ok(())
}

// The fields of an event.
#[derive(Clone, Copy, Debug, PartialEq, Eq)]
pub struct EventFields;

impl Repeated for EventFields {
    type Fault = EventFault;

    ghost Tree = { EventField };

    ghost one = { λ _. an_event_field };

    ghost tell = { λ _ act. tell_event_field act };

    fn read<R: Receiver>(&self, from: &mut Telling<'_, '_, R>) -> Result<(), EventFault> {
        let key: SpanEventKey = read_key(&mut from.buf)?;
        read_by_key(key, from)
    }
}

// The events of a span.
#[derive(Clone, Copy, Debug, PartialEq, Eq)]
pub struct Events;

impl Repeated for Events {
    type Fault = EventFault;

    ghost Tree = { List EventField };

    ghost one = { λ _. an_event };

    ghost tell = { λ _ act. tell_event act };

    fn read<R: Receiver>(&self, from: &mut Telling<'_, '_, R>) -> Result<(), EventFault> {
        let count = from.buf.read_count(Kind::Map, DecodeError::InvalidType)?;
        from.take(Step::BeginEvent);
        read_times(&EventFields, count, from)?;
        from.take(Step::EndEvent);
        Ok(())
    }
}

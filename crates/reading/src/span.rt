// Spans: maps whose fields may come in any order, and again.
ghost use Rattle.std.specs.Prelude.{[]};
ghost use Rattle.items.specs.declared.fault.DecodeError.TheVariants.{InvalidType as OtherType};
ghost use Rattle.items.specs.declared.head.Kind.TheVariants.{Array as AnArray};
ghost use Rattle.items.specs.Buffers.{ReadsOn};
ghost use Rattle.items.specs.Items.{a_length, all_causes};
ghost use Rattle.items.specs.Ranges.{integer_in};
ghost use Rattle.items.specs.Reads.{raised, nothing};
ghost use Rattle.faults.specs.declared.SpanFault.TheVariants.{Own};
ghost use Rattle.trees.specs.Payloads.{text_field, id_field, time_field, field_by, a_field, a_span};
ghost use Rattle.trees.specs.Records.{nullable, a_map};
ghost use Rattle.trees.specs.Steps.{on_step, tell_pairs, tell_field, tell_span};
ghost use Rattle.trees.specs.Tellings.{Tells};
ghost use Rattle.trees.specs.Tree.{SpanField};

use faults::SpanFault;
use items::buffer::Buffer;
use items::fault::{DecodeError, ItemFault};
use items::head::Kind;
use items::integer::IntegerRange;
use items::item::ItemKind;
use maps::key::read_key;
use maps::map::{Pairs, read_nullable_map};
use maps::pairs::{ItemPairs, PairReader, TextTexts};
use names::keys::SpanKey;
use records::event::Events;
use records::link::Links;
use trees::keys::{IdKey, PairKey, SignedKey, TextKey};
use trees::receiver::Receiver;
use trees::repeated::{Repeated, read_times};
use trees::step::Step;
use trees::telling::Telling;

// Reads a text, or null for none.
// Null is tested where it may stand: a function that took the reading as a closure could tell what was read only by its `post`, and is no plainer.
fn read_text<R: Receiver>(key: TextKey, from: &mut Telling<'_, '_, R>) -> Result<(), SpanFault>
    ensures { Tells R.Receiver tell_field nothing result from.old from.new (λ bytes at. raised Own (text_field key bytes at)) }
{
    let text = if from.buf.handle_null_marker() {
        None
    } else {
        Some(from.buf.read_item(ItemKind::Text)?)
    };
    from.take(Step::Text(key, text));
    Ok(())
}

// Reads an integer, or null for the one given.
fn read_nullable_integer<T: IntegerRange + Drop>(
    buf: &mut Buffer<'_>,
    null: T,
) -> Result<T, ItemFault>
    ensures { ReadsOn T.IntegerRange.worth result buf.old buf.new (nullable (T.IntegerRange.worth null) (integer_in T.IntegerRange.range)) }
{
    if buf.handle_null_marker() {
        return Ok(null);
    }
    buf.read_integer()
}

// Reads a number without a sign, or null for 0.
// `read_id` and `read_time` differ in type, range and step: one function would need a closure for the step, and its contract is no plainer.
fn read_id<R: Receiver>(key: IdKey, from: &mut Telling<'_, '_, R>) -> Result<(), SpanFault>
    ensures { Tells R.Receiver tell_field nothing result from.old from.new (λ bytes at. raised Own (id_field key bytes at)) }
{
    let id: u64 = read_nullable_integer(&mut from.buf, 0)?;
    from.take(Step::Id(key, id));
    Ok(())
}

// Reads a time, or null for 0.
fn read_time<R: Receiver>(key: SignedKey, from: &mut Telling<'_, '_, R>) -> Result<(), SpanFault>
    ensures { Tells R.Receiver tell_field nothing result from.old from.new (λ bytes at. raised Own (time_field key bytes at)) }
{
    let number: i64 = read_nullable_integer(&mut from.buf, 0)?;
    from.take(Step::Signed(key, number));
    Ok(())
}

// Reads a map of pairs of a kind, or null for an empty one.
fn read_pairs<P: PairReader, R: Receiver>(
    kind: P,
    key: PairKey,
    from: &mut Telling<'_, '_, R>,
) -> Result<(), ItemFault>
where
    P: Drop,
    ensures { Tells R.Receiver (λ act. tell_pairs act key) nothing result from.old from.new (nullable [] (a_map (P.PairReader.failing kind) (P.PairReader.one kind))) }
{
    read_nullable_map(&Pairs { kind, key }, from)
}

// Begins an array, or null for an empty one; answers how many elements follow.
// What follows is two lines for links and two for events, whose faults rise by `From`s of their own: one function for both is no plainer.
// Inlined: null is a common list, and nothing follows it.
#[inline(always)]
fn begin_array<R: Receiver>(
    begin: Step<'_>,
    from: &mut Telling<'_, '_, R>,
) -> Result<u64, ItemFault>
    ensures { Tells R.Receiver (λ act m n. act m (on_step begin.entry)) (λ n. n) result from.old from.new (nullable 0 (a_length AnArray (all_causes OtherType))) }
{
    let count = if from.buf.handle_null_marker() {
        0
    } else {
        from.buf.read_count(Kind::Array, DecodeError::InvalidType)?
    };
    from.take(begin);
    Ok(count)
}

// Reads a field by its name.
fn read_by_key<R: Receiver>(key: SpanKey, from: &mut Telling<'_, '_, R>) -> Result<(), SpanFault>
    ensures { Tells R.Receiver tell_field nothing result from.old from.new (field_by key) }
{
    match key {
        SpanKey::Service => read_text(TextKey::Service, from)?,
        SpanKey::Name => read_text(TextKey::Name, from)?,
        SpanKey::Resource => read_text(TextKey::Resource, from)?,
        SpanKey::Type => read_text(TextKey::Type, from)?,
        SpanKey::TraceId => read_id(IdKey::TraceId, from)?,
        SpanKey::SpanId => read_id(IdKey::SpanId, from)?,
        SpanKey::ParentId => read_id(IdKey::ParentId, from)?,
        SpanKey::Start => read_time(SignedKey::Start, from)?,
        SpanKey::Duration => read_time(SignedKey::Duration, from)?,
        SpanKey::Error => {
            let error: i32 = read_nullable_integer(&mut from.buf, 0)?;
            from.take(Step::Error(error));
        }
        SpanKey::Meta => read_pairs(TextTexts, PairKey::Meta, from)?,
        SpanKey::Metrics => read_pairs(ItemPairs::text_metrics(), PairKey::Metrics, from)?,
        SpanKey::MetaStruct => read_pairs(ItemPairs::text_bytes(), PairKey::MetaStruct, from)?,
        SpanKey::SpanLinks => {
            let count = begin_array(Step::BeginLinks, from)?;
            read_times(&Links, count, from)?;
        }
        SpanKey::SpanEvents => {
            let count = begin_array(Step::BeginEvents, from)?;
            read_times(&Events, count, from)?;
        }
    }
    Ok(())
}

// The fields of a span.
#[derive(Clone, Copy, Debug, PartialEq, Eq)]
pub struct SpanFields;

impl Repeated for SpanFields {
    type Fault = SpanFault;

    ghost Tree = { SpanField };

    ghost one = { λ _. a_field };

    ghost tell = { λ _ act. tell_field act };

    fn read<R: Receiver>(&self, from: &mut Telling<'_, '_, R>) -> Result<(), SpanFault> {
        let key: SpanKey = read_key(&mut from.buf)?;
        read_by_key(key, from)
    }
}

pub fn read_span<R: Receiver>(from: &mut Telling<'_, '_, R>) -> Result<(), SpanFault>
    ensures { Tells R.Receiver tell_span nothing result from.old from.new a_span }
{
    let count = from.buf.read_count(Kind::Map, DecodeError::InvalidFormat)?;
    from.take(Step::BeginSpan);
    read_times(&SpanFields, count, from)?;
    from.take(Step::EndSpan);
    Ok(())
}

// Links to other spans.
ghost use Rattle.std.specs.Prelude.{List};
ghost use Rattle.items.specs.Reads.{nothing};
ghost use Rattle.trees.specs.Records.{into, u64_range, link_field_by, a_link_field, a_link};
ghost use Rattle.trees.specs.Steps.{tell_link_field, tell_link};
ghost use Rattle.trees.specs.Tellings.{Tells};
ghost use Rattle.trees.specs.Tree.{LinkField, link_id};

use faults::LinkFault;
use items::fault::{DecodeError, ItemFault};
use items::head::Kind;
use maps::key::read_key;
use maps::map::{Pairs, read_map};
use maps::pairs::TextTexts;
use names::keys::SpanLinkKey;
use trees::keys::{LinkIdKey, PairKey};
use trees::receiver::Receiver;
use trees::repeated::{Repeated, read_times};
use trees::step::Step;
use trees::telling::Telling;

// Reads an id.
fn read_id<R: Receiver>(key: LinkIdKey, from: &mut Telling<'_, '_, R>) -> Result<(), ItemFault>
    ensures { Tells R.Receiver tell_link_field nothing result from.old from.new (λ bytes at. into (link_id key) (u64_range bytes at)) }
{
    let id: u64 = from.buf.read_integer()?;
    from.take(Step::LinkId(key, id));
    Ok(())
}

// Reads a field by its name.
fn read_by_key<R: Receiver>(
    key: SpanLinkKey,
    from: &mut Telling<'_, '_, R>,
) -> Result<(), ItemFault>
    ensures { Tells R.Receiver tell_link_field nothing result from.old from.new (link_field_by key) }
{
    match key {
        SpanLinkKey::TraceId => read_id(LinkIdKey::TraceId, from)?,
        SpanLinkKey::TraceIdHigh => read_id(LinkIdKey::TraceIdHigh, from)?,
        SpanLinkKey::SpanId => read_id(LinkIdKey::SpanId, from)?,
        SpanLinkKey::Attributes => {
            let pairs = Pairs {
                kind: TextTexts,
                key: PairKey::LinkAttributes,
            };
            read_map(&pairs, from)?;
        }
        SpanLinkKey::Tracestate => {
            let text = from.buf.read_text()?;
            from.take(Step::Tracestate(text));
        }
        SpanLinkKey::Flags => {
            let flags: u32 = from.buf.read_integer()?;
            from.take(Step::Flags(flags));
        }
    }
    Ok(())
}

// The fields of a link.
// `LinkFields`, `EventFields` and `SpanFields` each read a name and then by it: one type over all keys would need a trait on types of crate `names`, and is no plainer.
#[derive(Clone, Copy, Debug, PartialEq, Eq)]
pub struct LinkFields;

impl Repeated for LinkFields {
    type Fault = LinkFault;

    ghost Tree = { LinkField };

    ghost one = { λ _. a_link_field };

    ghost tell = { λ _ act. tell_link_field act };

    fn read<R: Receiver>(&self, from: &mut Telling<'_, '_, R>) -> Result<(), LinkFault> {
        let key: SpanLinkKey = read_key(&mut from.buf)?;
        read_by_key(key, from)?;
        Ok(())
    }
}

// The links of a span.
// `Links`, `Events` and `read_span` share four lines: one function for them would need their faults and steps as laws, and is no plainer.
#[derive(Clone, Copy, Debug, PartialEq, Eq)]
pub struct Links;

impl Repeated for Links {
    type Fault = LinkFault;

    ghost Tree = { List LinkField };

    ghost one = { λ _. a_link };

    ghost tell = { λ _ act. tell_link act };

    fn read<R: Receiver>(&self, from: &mut Telling<'_, '_, R>) -> Result<(), LinkFault> {
        let count = from.buf.read_count(Kind::Map, DecodeError::InvalidType)?;
        from.take(Step::BeginLink);
        read_times(&LinkFields, count, from)?;
        from.take(Step::EndLink);
        Ok(())
    }
}

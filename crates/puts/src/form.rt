// A number by the first bytes of its forms.
ghost use Rattle.sinks.specs.Puttings.{Puts};
ghost use Rattle.msgpack.specs.Encodings.{first_form};
ghost use Rattle.puts.specs.Lengths.{forms_of};

use crate::behind::put_behind;
use crate::first::FirstBytes;
use sinks::sink::{Full, Sink};

// Writes the number in the first form that takes it, and no byte where none does.
pub(crate) fn put_form<S: Sink>(sink: &mut S, first: FirstBytes, n: u64) -> Result<(), Full>
    ensures { Puts S.Sink (first_form (forms_of first) n) sink.old sink.new result }
{
    if let Some(near) = first.near
        && let Ok(n) = u8::try_from(n)
        && u32::from(n) < near.limit
    {
        return sink.put(&[near.base + n]);
    }
    if let Some(one) = first.one
        && let Ok(n) = u8::try_from(n)
    {
        return put_behind(sink, one, n.to_be_bytes());
    }
    if let Ok(n) = u16::try_from(n) {
        return put_behind(sink, first.two, n.to_be_bytes());
    }
    if let Ok(n) = u32::try_from(n) {
        return put_behind(sink, first.four, n.to_be_bytes());
    }
    match first.eight {
        Some(eight) => put_behind(sink, eight, n.to_be_bytes()),
        None => sink.put(&[]),
    }
}

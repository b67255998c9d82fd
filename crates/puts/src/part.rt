// Texts and byte parts: a length, and as many bytes.
ghost use Rattle.std.specs.Prelude.{◌≡◌, ◌++◌, ◌^◌, ◌<◌, ◌≤◌, true, length, is_err};
ghost use Rattle.sinks.specs.Puttings.{Puts};
ghost use Rattle.msgpack.specs.Encodings.{first_form};

use crate::length::{Binary, Length, Text, head_len, put_len};
use sinks::sink::{Full, Sink};

// What has a content of so many bytes as its length says.
// With no member, since all that a content needs is its length: it keeps arrays and maps out, whose length counts items.
pub trait Part: Length {}

impl Part for Text {}

impl Part for Binary {}

// A part that does not fit, or that no length of 32 bits tells, is refused and the sink stays as it is.
pub fn put_part<P: Part, S: Sink>(sink: &mut S, content: &[u8]) -> Result<(), Full>
    ensures short { length content.now < 2 ^ 32 → Puts S.Sink (first_form P.forms (length content.now) ++ content.now) sink.old sink.new result }
    ensures long { 2 ^ 32 ≤ length content.now → (is_err result ≡ true) × (S.state sink.new ≡ S.state sink.old) }
{
    let len = u32::try_from(content.len()).map_err(|_| Full)?;
    if sink.space() < (head_len::<P>(len) + content.len()) as u64 {
        return Err(Full);
    }
    put_len::<P, S>(sink, len)?;
    sink.put(content)
}

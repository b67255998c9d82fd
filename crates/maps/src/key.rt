// Names of fields, and maps of a fixed number of fields.
ghost use Rattle.items.specs.Buffers.{ReadsOn};
ghost use Rattle.items.specs.Reads.{nothing};
ghost use Rattle.trees.specs.Records.{a_key, fields_of};

use items::buffer::Buffer;
use items::fault::{DecodeError, ItemFault};
use items::head::Kind;
use names::keys::Named;

// Reads the name of a field; a text that names none is a fault at that text.
pub fn read_key<K: Named>(buf: &mut Buffer<'_>) -> Result<K, ItemFault>
    ensures { ReadsOn (λ k. k) result buf.old buf.new (a_key K.Named.found) }
{
    let name = buf.read_text()?;
    K::from_bytes(name.bytes).ok_or(DecodeError::InvalidFormat.at(name.place))
}

// Reads the header of a map of exactly so many fields.
pub fn read_fields(buf: &mut Buffer<'_>, fields: u64) -> Result<(), ItemFault>
    ensures { ReadsOn nothing result buf.old buf.new (fields_of fields) }
{
    let place = buf.pos;
    let count = buf.read_count(Kind::Map, DecodeError::InvalidType)?;
    if count != fields {
        return Err(DecodeError::InvalidFormat.at(place));
    }
    Ok(())
}

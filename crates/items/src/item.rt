// Items of the kinds that a map can hold, each by one call.
ghost use Rattle.std.specs.Prelude.{pos};
ghost use Rattle.items.specs.Items.{an_index};
ghost use Rattle.items.specs.Parts.{shown, an_item};
ghost use Rattle.items.specs.Buffers.{Reads};

use crate::behind::Behind;
use crate::buffer::Buffer;
use crate::fault::{DecodeError, ItemFault};
use crate::part::Part;

// The kinds of items that can be asked for.
// Values and no types with a trait: `ItemPairs` holds them as fields, the end of an index among them; four types would need four impls to say the four arms of `read_item`.
#[derive(Clone, Copy, Debug, PartialEq, Eq)]
pub enum ItemKind {
    Text,
    Bytes,
    // a number below this one
    Index(u64),
    Double,
}

// An item as it was read. Texts and byte parts borrow the window.
#[derive(Clone, Copy, Debug, PartialEq, Eq)]
pub enum Item<'a> {
    Text(Part<'a>),
    Bytes(Part<'a>),
    // the number of a dictionary's entry
    Index(u32),
    // a double by its 64 bits
    Double(u64),
}

impl<'a> Buffer<'a> {
    // Reads a number of 32 bits below `end`.
    pub fn read_index(&mut self, end: u64) -> Result<u32, ItemFault>
        ensures { Reads pos result self.old self.new (an_index end) }
    {
        let index: Behind<u32> = self.next_integer()?;
        if u64::from(index.value) >= end {
            return Err(self.fault(DecodeError::InvalidFormat));
        }
        Ok(self.pass(index))
    }

    // Reads an item of the kind asked.
    // Inlined, so that a kind known at the call is not asked again for each item.
    #[inline(always)]
    pub fn read_item(&mut self, kind: ItemKind) -> Result<Item<'a>, ItemFault>
        ensures { Reads shown result self.old self.new (an_item kind) }
    {
        // `?` and no `map`: the borrow checker does not cover `map` with a result that borrows the window.
        Ok(match kind {
            ItemKind::Text => Item::Text(self.read_text()?),
            ItemKind::Bytes => Item::Bytes(self.read_bytes()?),
            ItemKind::Index(end) => Item::Index(self.read_index(end)?),
            ItemKind::Double => Item::Double(self.read_double()?),
        })
    }
}

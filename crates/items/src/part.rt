// Texts, byte parts and truth values.
ghost use Rattle.items.specs.Items.{a_piece, a_text, a_binary, a_truth};
ghost use Rattle.items.specs.Parts.{piece_of};
ghost use Rattle.items.specs.Buffers.{Reads, Sees};

use crate::behind::Behind;
use crate::buffer::Buffer;
use crate::fault::{DecodeError, ItemFault};
use crate::head::{Head, Kind};
use crate::length::Causes;
use msgpack::text::is_text;

// A text or a byte part of the window.
#[derive(Clone, Copy, Debug, PartialEq, Eq)]
pub struct Part<'a> {
    pub bytes: &'a [u8],
    // the place of the item's first byte
    pub place: usize,
    // the place of the first of `bytes`
    pub start: usize,
}

impl<'a> Buffer<'a> {
    // The part that the next item is, which is not passed over; where its bytes are short, the cause given.
    fn next_part(
        &self,
        kind: Kind,
        causes: Causes,
        short: DecodeError,
    ) -> Result<Behind<Part<'a>>, ItemFault>
        ensures { Sees piece_of result self.now (a_piece kind causes short) }
    {
        let header = self.header(kind, causes)?;
        let start = header.next;
        // `as` keeps the number, since a `usize` has 64 bits; `try_from` would add a failure that no length leads to.
        let bytes = self.window[start..]
            .get(..header.value as usize)
            .ok_or(self.fault(short))?;
        Ok(Behind {
            value: Part {
                bytes,
                place: self.pos,
                start,
            },
            next: start + bytes.len(),
        })
    }

    pub fn read_text(&mut self) -> Result<Part<'a>, ItemFault>
        ensures { Reads piece_of result self.old self.new a_text }
    {
        let part = self.next_part(Kind::Text, Causes::of_text(), DecodeError::IOError)?;
        if !is_text(part.value.bytes) {
            return Err(self.fault(DecodeError::Utf8Error));
        }
        Ok(self.pass(part))
    }

    pub fn read_bytes(&mut self) -> Result<Part<'a>, ItemFault>
        ensures { Reads piece_of result self.old self.new a_binary }
    {
        let part = self.next_part(
            Kind::Bytes,
            Causes::all(DecodeError::InvalidFormat),
            DecodeError::InvalidFormat,
        )?;
        Ok(self.pass(part))
    }

    // Reads a truth value; every failure has the cause given.
    pub fn read_boolean(&mut self, cause: DecodeError) -> Result<bool, ItemFault>
        ensures { Reads (λ b. b) result self.old self.new (a_truth cause) }
    {
        match self.head() {
            Some(Head::Truth(b)) => {
                self.pos += 1;
                Ok(b)
            }
            _ => Err(self.fault(cause)),
        }
    }
}

// Lengths: of texts, byte parts, arrays and maps.
ghost use Rattle.std.specs.Prelude.{◌≡◌};
ghost use Rattle.items.specs.Items.{a_length, all_causes, text_causes, value_causes};
ghost use Rattle.items.specs.Buffers.{Reads, Sees};

use crate::behind::Behind;
use crate::buffer::Buffer;
use crate::fault::{DecodeError, ItemFault};
use crate::head::{Head, Kind};

// The causes of the ways in which a length can fail.
#[derive(Clone, Copy, Debug, PartialEq, Eq)]
pub struct Causes {
    pub nothing_left: DecodeError,
    pub other_marker: DecodeError,
    pub length_missing: DecodeError,
}

impl Causes {
    // One cause for all failures.
    pub fn all(cause: DecodeError) -> Causes
        ensures { result ≡ all_causes cause }
    {
        Causes {
            nothing_left: cause,
            other_marker: cause,
            length_missing: cause,
        }
    }

    // The causes of a text's length.
    pub fn of_text() -> Causes
        ensures { result ≡ text_causes }
    {
        Causes {
            nothing_left: DecodeError::InvalidFormat,
            other_marker: DecodeError::InvalidType,
            length_missing: DecodeError::InvalidConversion,
        }
    }

    // The causes of the length of a map of metrics or of byte parts.
    pub fn of_values() -> Causes
        ensures { result ≡ value_causes }
    {
        Causes {
            nothing_left: DecodeError::InvalidFormat,
            other_marker: DecodeError::InvalidType,
            length_missing: DecodeError::IOError,
        }
    }
}

impl<'a> Buffer<'a> {
    // The header of the next item, which is not passed over.
    // `kind` and `causes` are two parameters: arrays and maps are each read with more than one set of causes, so a struct of both would be made at each call and taken apart here.
    pub(crate) fn header(&self, kind: Kind, causes: Causes) -> Result<Behind<u64>, ItemFault>
        ensures { Sees (λ n. n) result self.now (a_length kind causes) }
    {
        let head = self.head().ok_or(self.fault(causes.nothing_left))?;
        match head {
            Head::Length(other, n) if other == kind => Ok(Behind {
                value: u64::from(n),
                next: self.pos + 1,
            }),
            Head::LengthBehind(other, width) if other == kind => self.content(
                width,
                causes.length_missing,
            ),
            _ => Err(self.fault(causes.other_marker)),
        }
    }

    // Reads the length of an array or a map.
    pub fn read_length(&mut self, kind: Kind, causes: Causes) -> Result<u64, ItemFault>
        ensures { Reads (λ n. n) result self.old self.new (a_length kind causes) }
    {
        let header = self.header(kind, causes)?;
        Ok(self.pass(header))
    }

    // Reads the length of an array or a map; every failure has the cause given.
    pub fn read_count(&mut self, kind: Kind, cause: DecodeError) -> Result<u64, ItemFault>
        ensures { Reads (λ n. n) result self.old self.new (a_length kind (all_causes cause)) }
    {
        self.read_length(kind, Causes::all(cause))
    }
}

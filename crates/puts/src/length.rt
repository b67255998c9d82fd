// Lengths of texts, byte parts, arrays and maps, each in its shortest form.
ghost use Rattle.std.specs.Prelude.{◌≡◌, ◌≤◌, List, length};
ghost use Rattle.sinks.specs.Puttings.{Puts};
ghost use Rattle.msgpack.specs.Encodings.{Form, first_form, text_forms, binary_forms, array_forms, map_forms};
ghost use Rattle.puts.specs.Lengths.{forms_of};

use crate::first::{FirstBytes, Near};
use crate::form::put_form;
use sinks::count::CountLength;
use sinks::sink::{Full, Sink};

// What a length is the length of.
// A type for each, and not the kinds that a reading is asked for: this crate does not stand on reading, and the first bytes of a type are known where it is named.
pub trait Length {
    ghost forms: { List Form };

    // A function: a constant would need its value a second time, as a ghost member, for a clause to speak of it.
    fn first_bytes() -> FirstBytes
        ensures { forms_of result ≡ forms };
}

// A text, by its bytes.
#[derive(Clone, Copy, Debug, Default, PartialEq, Eq)]
pub struct Text;

impl Length for Text {
    ghost forms = { text_forms };

    fn first_bytes() -> FirstBytes {
        FirstBytes {
            near: Some(Near {
                limit: 0x20,
                base: 0xa0,
            }),
            one: Some(0xd9),
            two: 0xda,
            four: 0xdb,
            eight: None,
        }
    }
}

// A byte part.
#[derive(Clone, Copy, Debug, Default, PartialEq, Eq)]
pub struct Binary;

impl Length for Binary {
    ghost forms = { binary_forms };

    fn first_bytes() -> FirstBytes {
        FirstBytes {
            near: None,
            one: Some(0xc4),
            two: 0xc5,
            four: 0xc6,
            eight: None,
        }
    }
}

// An array, by its items.
#[derive(Clone, Copy, Debug, Default, PartialEq, Eq)]
pub struct Array;

impl Length for Array {
    ghost forms = { array_forms };

    fn first_bytes() -> FirstBytes {
        FirstBytes {
            near: Some(Near {
                limit: 0x10,
                base: 0x90,
            }),
            one: None,
            two: 0xdc,
            four: 0xdd,
            eight: None,
        }
    }
}

// A map, by its pairs.
#[derive(Clone, Copy, Debug, Default, PartialEq, Eq)]
pub struct Map;

impl Length for Map {
    ghost forms = { map_forms };

    fn first_bytes() -> FirstBytes {
        FirstBytes {
            near: Some(Near {
                limit: 0x10,
                base: 0x80,
            }),
            one: None,
            two: 0xde,
            four: 0xdf,
            eight: None,
        }
    }
}

pub fn put_len<L: Length, S: Sink>(sink: &mut S, n: u32) -> Result<(), Full>
    ensures { Puts S.Sink (first_form L.forms n) sink.old sink.new result }
{
    put_form(sink, L::first_bytes(), u64::from(n))
}

// How many bytes the length takes: those that a sink counts.
pub fn head_len<L: Length>(n: u32) -> usize
    ensures length { result ≡ length (first_form L.forms n) }
    ensures bound { result ≤ 5 }
{
    let mut count = CountLength(0);
    let _ = put_form(&mut count, L::first_bytes(), u64::from(n));
    count.0 as usize
}

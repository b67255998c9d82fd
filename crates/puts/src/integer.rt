// Integers in their shortest form: from 0 up without a sign, below 0 with one.
ghost use Rattle.std.specs.Prelude.{◌<ℤ◌, pos};
ghost use Rattle.sinks.specs.Puttings.{Puts};
ghost use Rattle.msgpack.specs.Encodings.{written_integer};

use crate::behind::put_behind;
use crate::first::{FirstBytes, Near};
use crate::form::put_form;
use sinks::sink::{Full, Sink};

pub fn put_unsigned<S: Sink>(sink: &mut S, n: u64) -> Result<(), Full>
    ensures { Puts S.Sink (written_integer (pos n)) sink.old sink.new result }
{
    let first = FirstBytes {
        near: Some(Near {
            limit: 0x80,
            base: 0,
        }),
        one: Some(0xcc),
        two: 0xcd,
        four: 0xce,
        eight: Some(0xcf),
    };
    put_form(sink, first, n)
}

// Its own steps: the bytes are in two's complement, and the first byte counts down, so `put_form` for both would be no plainer.
fn put_negative<S: Sink>(sink: &mut S, n: i64) -> Result<(), Full>
    requires { n <ℤ pos 0 }
    ensures { Puts S.Sink (written_integer n) sink.old sink.new result }
{
    if let Ok(n @ -0x20..) = i8::try_from(n) {
        return sink.put(&n.to_be_bytes());
    }
    if let Ok(n) = i8::try_from(n) {
        return put_behind(sink, 0xd0, n.to_be_bytes());
    }
    if let Ok(n) = i16::try_from(n) {
        return put_behind(sink, 0xd1, n.to_be_bytes());
    }
    if let Ok(n) = i32::try_from(n) {
        return put_behind(sink, 0xd2, n.to_be_bytes());
    }
    put_behind(sink, 0xd3, n.to_be_bytes())
}

pub fn put_integer<S: Sink>(sink: &mut S, n: i64) -> Result<(), Full>
    ensures { Puts S.Sink (written_integer n) sink.old sink.new result }
{
    if n >= 0 {
        put_unsigned(sink, n.cast_unsigned())
    } else {
        put_negative(sink, n)
    }
}

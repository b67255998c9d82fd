// Writing one item of a given kind.
use puts::fixed::{DoubleBits, Fixed};
use puts::integer::{put_integer, put_unsigned};
use puts::length::{Array, Binary, Map, Text, put_len};
use sinks::slice::SliceSink;
use std::alloc::Global;

// Each kind takes the numbers of its type, but `u8` the low eight bits of one of 32, and every other kind is a map's length.
fn put_value(sink: &mut SliceSink<'_>, kind: &str, value: &str) -> anyhow::Result<()> {
    match kind {
        "integer" => put_integer(sink, value.parse()?)?,
        "unsigned" => put_unsigned(sink, value.parse()?)?,
        "u8" => value.parse::<u32>()?.to_le_bytes()[0].put_fixed(sink)?,
        "u32" => value.parse::<u32>()?.put_fixed(sink)?,
        "u64" => value.parse::<u64>()?.put_fixed(sink)?,
        "i64" => value.parse::<i64>()?.put_fixed(sink)?,
        "double" => DoubleBits(value.parse()?).put_fixed(sink)?,
        "truth" => (value.parse::<u64>()? != 0).put_fixed(sink)?,
        "text" => put_len::<Text, _>(sink, value.parse()?)?,
        "bytes" => put_len::<Binary, _>(sink, value.parse()?)?,
        "array" => put_len::<Array, _>(sink, value.parse()?)?,
        _ => put_len::<Map, _>(sink, value.parse()?)?,
    }
    Ok(())
}

// The bytes written for a value.
pub fn write_item(heap: Global, kind: &str, value: &str) -> anyhow::Result<Vec<u8>> {
    let mut out = [0u8; 9];
    let mut sink = SliceSink::new(&mut out);
    put_value(&mut sink, kind, value)?;
    let count = sink.written();
    // `out[..count].to_vec(heap)` was tried: its bound is not proved, since `put_value` says nothing of the sink.
    Ok(out.iter().copied().take(count).collect(heap)?)
}

// Reading one item of a given kind.
use items::buffer::Buffer;
use items::fault::{DecodeError, ItemFault};
use items::head::Kind;
use items::length::Causes;
use items::part::Part;
use std::fmt;
use thiserror::Error;

// What was read.
#[derive(Clone, Copy, Debug, PartialEq, Eq)]
enum Said {
    Whole(i128),
    Bits(u64),
    // where a part begins, and its length
    Part(usize, usize),
}

impl fmt::Display for Said {
    fn fmt<W: fmt::Write>(&self, f: &mut fmt::Formatter<W>) -> fmt::Result {
        match self {
            Said::Whole(n) => write!(f, "{n}"),
            Said::Bits(n) => write!(f, "{n:x}"),
            Said::Part(start, length) => write!(f, "from {start} length {length}"),
        }
    }
}

fn whole<T: Into<i128> + Drop>(n: T) -> Said {
    Said::Whole(n.into())
}

fn part(read: Part<'_>) -> Said {
    Said::Part(read.start, read.bytes.len())
}

// Why nothing was read.
#[derive(Clone, Copy, Debug, PartialEq, Eq, Error)]
enum Unread {
    #[error("fault {} place {}", .0.cause.number(), .0.place)]
    Fault(#[from] ItemFault),
    #[error("no such kind")]
    NoSuchKind,
}

// What a reading says, and the place after it.
#[derive(Clone, Copy, Debug, PartialEq, Eq)]
pub struct Answer {
    said: Result<Said, Unread>,
    next: usize,
}

impl fmt::Display for Answer {
    fn fmt<W: fmt::Write>(&self, f: &mut fmt::Formatter<W>) -> fmt::Result {
        let next = self.next;
        match self.said {
            Ok(said) => write!(f, "{said} next {next}"),
            Err(Unread::NoSuchKind) => write!(f, "{}", Unread::NoSuchKind),
            Err(unread) => write!(f, "{unread} next {next}"),
        }
    }
}

fn read_kind(buf: &mut Buffer<'_>, kind: &str) -> Result<Said, Unread> {
    Ok(match kind {
        "u8" => whole(buf.read_integer::<u8>()?),
        "u32" => whole(buf.read_integer::<u32>()?),
        "u64" => whole(buf.read_integer::<u64>()?),
        "i32" => whole(buf.read_integer::<i32>()?),
        "i64" => whole(buf.read_integer::<i64>()?),
        "double" => Said::Bits(buf.read_double()?),
        "text" => part(buf.read_text()?),
        "bytes" => part(buf.read_bytes()?),
        "array2" => whole(buf.read_count(Kind::Array, DecodeError::InvalidType)?),
        "array3" => whole(buf.read_count(Kind::Array, DecodeError::InvalidFormat)?),
        "map2" => whole(buf.read_count(Kind::Map, DecodeError::InvalidType)?),
        "map3" => whole(buf.read_count(Kind::Map, DecodeError::InvalidFormat)?),
        "values" => whole(buf.read_length(Kind::Map, Causes::of_values())?),
        "truth" => whole(buf.read_boolean(DecodeError::InvalidType)?),
        "null" => whole(buf.handle_null_marker()),
        _ => return Err(Unread::NoSuchKind),
    })
}

pub fn read_item(kind: &str, bytes: &[u8]) -> Answer {
    let mut buf = Buffer::new(bytes);
    let said = read_kind(&mut buf, kind);
    Answer {
        said,
        next: buf.place(),
    }
}

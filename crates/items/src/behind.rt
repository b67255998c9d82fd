// What the next item says, before it is passed over.
ghost use Rattle.std.specs.Prelude.{◌≡◌, ◌^◌, ◌<◌, ◌≤◌, length, take, IfSome, IfOk, if◌then◌else◌, Some, None, nat_le};
ghost use Rattle.msgpack.specs.Numbers.{wide, big};
ghost use Rattle.items.specs.Buffers.{Sees};
ghost use Rattle.items.specs.Items.{by_content};

use crate::buffer::Buffer;
use crate::fault::{DecodeError, ItemFault};
use msgpack::marker::Width;

// What the next item says, and the place behind it.
#[derive(Clone, Copy, Debug, PartialEq, Eq)]
pub(crate) struct Behind<T> {
    pub value: T,
    pub next: usize,
}

impl<T> Behind<T> {
    // What f makes of what the item says, with the same place.
    pub(crate) fn map<U, F: FnOnce(T) -> U>(self, f: F) -> Behind<U>
        requires { F.pre f self.value }
        ensures value { F.post f self.value result.value }
        ensures next { result.next ≡ self.next }
    {
        Behind {
            value: f(self.value),
            next: self.next,
        }
    }
}

// The big-endian number that the bytes begin with, where there are enough of them.
// Four arms, of one load each: std has `from_be_bytes` for each size and no trait over them; one body for all would be a fold, byte by byte, or a copy of varying length.
// Inlined into `content` alone.
#[inline(always)]
fn big_endian(bytes: &[u8], width: Width) -> Option<u64>
    ensures value { result ≡ (if nat_le (wide width) (length bytes.now) then Some (big (take (wide width) bytes.now)) else None) }
    ensures bound { IfSome result (λ n. n < 256 ^ wide width) }
{
    match width {
        Width::One => bytes
            .first_chunk()
            .map(|run| u64::from(u8::from_be_bytes(*run))),
        Width::Two => bytes
            .first_chunk()
            .map(|run| u64::from(u16::from_be_bytes(*run))),
        Width::Four => bytes
            .first_chunk()
            .map(|run| u64::from(u32::from_be_bytes(*run))),
        Width::Eight => bytes.first_chunk().map(|run| u64::from_be_bytes(*run)),
    }
}

impl<'a> Buffer<'a> {
    // The big-endian number behind the next item's first byte, which is not passed over; where the window is too short, the cause given.
    // Inlined: what it answers is large, and each reader matches on it at once.
    #[inline(always)]
    pub(crate) fn content(&self, width: Width, short: DecodeError) -> Result<Behind<u64>, ItemFault>
        ensures sees { Sees (λ n. n) result self.now (by_content short width (λ n. n)) }
        ensures bound { IfOk result (λ b. b.value < 256 ^ wide width) }
    {
        let bytes = self.window.get(self.pos + 1..).ok_or(self.fault(short))?;
        let value = big_endian(bytes, width).ok_or(self.fault(short))?;
        Ok(Behind {
            value,
            next: self.pos + 1 + width.bytes(),
        })
    }

    // Passes over the next item, and answers what it says.
    pub(crate) fn pass<T>(&mut self, item: Behind<T>) -> T
        requires { item.next ≤ length self.old.window.now }
        ensures value { result ≡ item.value }
        ensures place { self.new.pos ≡ item.next }
        ensures window { self.new.window ≡ self.old.window }
    {
        self.pos = item.next;
        item.value
    }
}

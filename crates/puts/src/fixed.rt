// Numbers in one form whatever they are, and truth values.
ghost use Rattle.std.specs.Prelude.{◌^◌, ◌<◌, true, false, List, ℕ, pos, negsuc, refl};
ghost use Rattle.sinks.specs.Puttings.{Puts};
ghost use Rattle.msgpack.specs.Encodings.{Item, boolean, integer, float64, written_boolean, fixed_u8, fixed_u32, fixed_u64, fixed_i64, fixed_double};
ghost use Rattle.puts.specs.Laws.{Encoded, FitsSigned};
ghost use Rattle.std.proofs.Common.{inl, inr};

use crate::behind::put_behind;
use sinks::sink::{Full, Sink};

// A value that is written in one form, which is an encoding of the value's item.
pub trait Fixed {
    ghost item: { Self → Item };

    ghost Fits: { Self → Type 0 };

    ghost form: { Self → List ℕ };

    fn put_fixed<S: Sink>(self, sink: &mut S) -> Result<(), Full>
        ensures { Puts S.Sink (form self) sink.old sink.new result };

    ghost encoded: { Encoded item Fits form };
}

impl Fixed for bool {
    ghost item = { boolean };

    ghost Fits = { λ _. Unit {0} };

    ghost form = { written_boolean };

    ghost encoded = { elim [ true ↦ λ _. refl | false ↦ λ _. refl ] };

    fn put_fixed<S: Sink>(self, sink: &mut S) -> Result<(), Full> {
        sink.put(&[if self { 0xc3 } else { 0xc2 }])
    }
}

// An impl for each type of integer: one over a trait of integers would take from that trait the same members, and the first byte, so each type would have its impl still.
impl Fixed for u8 {
    ghost item = { λ n. integer (pos n) };

    ghost Fits = { λ n. n < 2 ^ 8 };

    ghost form = { fixed_u8 };

    ghost encoded = { λ n h. inl (inr (inl (h, refl))) };

    fn put_fixed<S: Sink>(self, sink: &mut S) -> Result<(), Full> {
        put_behind(sink, 0xcc, self.to_be_bytes())
    }
}

impl Fixed for u32 {
    ghost item = { λ n. integer (pos n) };

    ghost Fits = { λ n. n < 2 ^ 32 };

    ghost form = { fixed_u32 };

    ghost encoded = { λ n h. inl (inr (inr (inr (inl (h, refl))))) };

    fn put_fixed<S: Sink>(self, sink: &mut S) -> Result<(), Full> {
        put_behind(sink, 0xce, self.to_be_bytes())
    }
}

impl Fixed for u64 {
    ghost item = { λ n. integer (pos n) };

    ghost Fits = { λ n. n < 2 ^ 64 };

    ghost form = { fixed_u64 };

    ghost encoded = { λ n h. inl (inr (inr (inr (inr (inl (h, refl)))))) };

    fn put_fixed<S: Sink>(self, sink: &mut S) -> Result<(), Full> {
        put_behind(sink, 0xcf, self.to_be_bytes())
    }
}

impl Fixed for i64 {
    ghost item = { integer };

    ghost Fits = { FitsSigned };

    ghost form = { fixed_i64 };

    ghost encoded = { elim [ pos n ↦ λ h. inr (inr (inr (inr (inl (h, refl))))) | negsuc n ↦ λ h. inr (inr (inr (inr (inl (h, refl))))) ] };

    fn put_fixed<S: Sink>(self, sink: &mut S) -> Result<(), Full> {
        put_behind(sink, 0xd3, self.to_be_bytes())
    }
}

// A double by its 64 bits.
#[derive(Clone, Copy, Debug, PartialEq, Eq)]
pub struct DoubleBits(pub u64);

impl Fixed for DoubleBits {
    ghost item = { λ d. float64 d.0 };

    ghost Fits = { λ d. d.0 < 2 ^ 64 };

    ghost form = { λ d. fixed_double d.0 };

    ghost encoded = { λ d h. (h, refl) };

    fn put_fixed<S: Sink>(self, sink: &mut S) -> Result<(), Full> {
        put_behind(sink, 0xcb, self.0.to_be_bytes())
    }
}

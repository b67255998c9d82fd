// Doubles, as the 64 bits of IEEE 754's binary64.
ghost use Rattle.std.specs.Prelude.{◌≡◌, pos};
ghost use Rattle.msgpack.specs.Doubles.{nearest_double, widened, widened_nan};

use std::num::{
    f32_from_bits_with_nan, f32_to_f64_with_nan, f64_to_bits_with_nan, nearest_i64_to_f64,
    nearest_u64_to_f64,
};

// The double nearest to a number; of two as near, the one with an even last digit.
// Two functions and no generic one, which is no plainer: std has a function for each type and no trait over them, so a trait here would hold these same two bodies; `to_f64` of num_traits answers an Option, and each caller would have to say what its empty case means.
pub fn unsigned_bits(n: u64) -> u64
    ensures { result ≡ nearest_double (pos n) }
{
    f64_to_bits_with_nan(nearest_u64_to_f64(n))
}

pub fn signed_bits(n: i64) -> u64
    ensures { result ≡ nearest_double n }
{
    f64_to_bits_with_nan(nearest_i64_to_f64(n))
}

// The double of a single's NaN: it keeps its sign and its payload, and is quiet.
fn nan_bits(bits: u32) -> u64
    ensures { result ≡ widened_nan bits }
{
    let sign = u64::from(bits / 0x8000_0000);
    let payload = u64::from(bits % 0x40_0000);
    sign * 0x8000_0000_0000_0000 + 0x7ff8_0000_0000_0000 + payload * 0x2000_0000
}

// The double of a single's value.
pub fn single_bits(bits: u32) -> u64
    ensures { result ≡ widened bits }
{
    if bits % 0x8000_0000 > 0x7f80_0000 {
        return nan_bits(bits);
    }
    f64_to_bits_with_nan(f32_to_f64_with_nan(f32_from_bits_with_nan(bits)))
}

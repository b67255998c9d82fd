// The integer kinds that a number can be asked as, each by its range.
ghost use Rattle.std.specs.Prelude.{◌≡◌, ℤ, pos, negsuc, Result};
ghost use Rattle.std.specs.Option.{option_map};
ghost use Rattle.std.specs.Result.{result_ok};
ghost use Rattle.std.proofs.Common.{rules};
ghost use Rattle.items.specs.Ranges.{Range, held_in};

// A kind of integers: those of a range.
pub trait IntegerRange: TryFrom<i128, Error: Drop> {
    ghost range: { Range };

    // The integer that a value is.
    ghost worth: { Self → ℤ };

    // A number becomes one of this kind where it is in the range.
    ghost holds: { (n : ℤ) (r : Result Self Self.Error) → Self.try_from_gives n r → option_map worth (result_ok r) ≡ held_in range n };
}

impl IntegerRange for u8 {
    ghost range = { record { low = pos 0; high = pos 255 } };

    ghost worth = { pos };

    ghost holds = { Prim.search rules };
}

impl IntegerRange for u32 {
    ghost range = { record { low = pos 0; high = pos 4294967295 } };

    ghost worth = { pos };

    ghost holds = { Prim.search rules };
}

impl IntegerRange for u64 {
    ghost range = { record { low = pos 0; high = pos 18446744073709551615 } };

    ghost worth = { pos };

    ghost holds = { Prim.search rules };
}

impl IntegerRange for i32 {
    ghost range = { record { low = negsuc 2147483647; high = pos 2147483647 } };

    ghost worth = { λ z. z };

    ghost holds = { Prim.search rules };
}

impl IntegerRange for i64 {
    ghost range = { record { low = negsuc 9223372036854775807; high = pos 9223372036854775807 } };

    ghost worth = { λ z. z };

    ghost holds = { Prim.search rules };
}

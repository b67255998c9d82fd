// Lines of hexadecimal digits, as programs take bytes from standard input.
#![tactic(auto)]

ghost use Rattle.std.specs.Prelude.{◌≡◌, ◌<◌, Some, None, IfOk, IsErrOf, MatchResult};
ghost use Rattle.hexline.specs.declared.LineError.TheVariants.{NoDigit, OutOfMemory};
ghost use Rattle.hexline.specs.Lines.{digit_of, bytes_in};

use std::alloc::{AllocError, AllocFailed, Global};
use thiserror::Error;

// Why a line has no bytes.
#[derive(Clone, Copy, Debug, PartialEq, Eq, Error)]
pub enum LineError {
    #[error("no digit")]
    NoDigit,
    #[error("{AllocError}")]
    OutOfMemory,
}

// By hand, since one that is derived has no `from_gives`, by which `no_digit` below is proved.
impl<T: Drop> From<AllocFailed<T>> for LineError {
    ghost from_gives = { λ _ e. e ≡ OutOfMemory };

    fn from(_e: AllocFailed<T>) -> LineError {
        LineError::OutOfMemory
    }
}

// The digit that a character stands for. Not the kit's `hex`: that takes A to F too, and refuses a last digit alone.
fn digit(b: u8) -> Result<u8, LineError>
    ensures { MatchResult result (λ d. (digit_of b ≡ Some d) × (d < 16)) (λ e. (digit_of b ≡ None) × (e ≡ NoDigit)) }
{
    match b {
        b'0'..=b'9' => Ok(b - b'0'),
        b'a'..=b'f' => Ok(b - b'a' + 10),
        _ => Err(LineError::NoDigit),
    }
}

// The bytes that a line writes, two digits each; a last digit alone writes none.
pub fn bytes_of(alloc: Global, line: &str) -> Result<Vec<u8>, LineError>
    ensures bytes { IfOk result (λ v. bytes_in line.now ≡ Some v.items) }
    ensures no_digit { IsErrOf result LineError.NoDigit → bytes_in line.now ≡ None }
{
    let mut bytes = Vec::new(alloc);
    let mut rest = line.as_bytes();
    // Tried: a `for` over `as_chunks::<2>()`. With its invariant four goals on where a chunk stands in the line are left, which did not close; here one is.
    while let [high, low, more @ ..] = rest {
        bytes.push(digit(*high)? * 16 + digit(*low)?)?;
        rest = more;
    }
    if let [last] = rest {
        digit(*last)?;
    }
    Ok(bytes)
}

#[cfg(test)]
mod tests {
    use super::*;
    use std::test::Fail;

    #[test]
    fn a_line_gives_its_bytes(rt: HostRuntime) -> Result<(), Fail> {
        let bytes = bytes_of(rt.alloc(), "00ff1ac")?;
        assert_eq!(rt; bytes.as_slice(), [0, 255, 26].as_slice());
        Ok(())
    }

    #[test]
    fn other_characters_are_no_digits(rt: HostRuntime) -> Result<(), Fail> {
        for line in ["0g", "AA", "00 ", "g"] {
            assert_eq!(rt; bytes_of(rt.alloc(), line).err(), Some(LineError::NoDigit));
        }
        Ok(())
    }
}

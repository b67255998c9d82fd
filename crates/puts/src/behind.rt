// A first byte, and behind it a number in so many bytes, the highest first.
ghost use Rattle.std.specs.Prelude.{◌∷◌, ◌≤◌};
ghost use Rattle.sinks.specs.Puttings.{Puts};

use sinks::sink::{Full, Sink};

// The run stands in a fixed array, since no write takes memory from the heap: a rule of the project.
pub fn put_behind<S: Sink, const N: usize>(
    sink: &mut S,
    first: u8,
    number: [u8; N],
) -> Result<(), Full>
    requires { N ≤ 8 }
    ensures { Puts S.Sink (first ∷ number.entry) sink.old sink.new result }
{
    let mut run = [first; 9];
    run[1..=N].copy_from_slice(&number);
    sink.put(&run[..=N])
}

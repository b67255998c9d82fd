// A sink that counts bytes in place of keeping them.
ghost use Rattle.std.specs.Prelude.{ℕ};
ghost use Rattle.sinks.specs.Counts.{count_state, counted, counted_laws};

use crate::sink::{Full, Sink};

// How many bytes were put.
#[derive(Clone, Copy, Debug, Default, PartialEq, Eq)]
pub struct CountLength(pub u32);

impl Sink for CountLength {
    ghost Meaning = { ℕ };

    ghost state = { λ s. count_state s.0 };

    ghost moved = { counted };

    ghost laws = { counted_laws };

    fn space(&self) -> u64 {
        u64::from(u32::MAX - self.0)
    }

    fn put(&mut self, run: &[u8]) -> Result<(), Full> {
        let len = u32::try_from(run.len()).map_err(|_| Full)?;
        self.0 = self.0.checked_add(len).ok_or(Full)?;
        Ok(())
    }
}

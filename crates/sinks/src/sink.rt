// What every sink promises.
ghost use Rattle.std.specs.Prelude.{◌≡◌, ℕ, List};
ghost use Rattle.sinks.specs.Sinks.{State, Laws, Put, full_number};

use thiserror::Error;

// A run does not fit.
#[derive(Clone, Copy, Debug, PartialEq, Eq, Error)]
#[error("full")]
pub struct Full;

impl Full {
    // The number by which documents know this refusal: a rule of the project, since all refusals share one table of numbers.
    pub fn number(self) -> u8
        ensures { result ≡ full_number }
    {
        10
    }
}

// A sink has a meaning and room; a run of bytes moves the meaning and takes its length from the room.
pub trait Sink {
    ghost Meaning: { Type 0 };

    ghost state: { Self → State Meaning };

    ghost moved: { Meaning → List ℕ → Meaning };

    ghost laws: { Laws moved };

    // How many bytes still fit.
    fn space(&self) -> u64
        ensures { result ≡ (state self.now).room };

    // Writes all of the run, or nothing where it does not fit.
    fn put(&mut self, run: &[u8]) -> Result<(), Full>
        ensures { Put moved run.now (state self.old) (state self.new) result };
}

// A sink over memory that the user lends.
ghost use Rattle.std.specs.Prelude.{◌≡◌, ◌<◌, ◌≤◌, ◌++◌, length, drop, MatchResult};
ghost use Rattle.sinks.specs.Slices.{Written, wrote, wrote_laws, slice_state, started};

use crate::sink::{Full, Sink};

// The first `at` bytes are written. A rule of the project: the memory is lent by the user, and its written length stands beside it.
#[derive(Drop)]
pub struct SliceSink<'a> {
    out: &'a mut [u8],
    at: usize,
    ghost within: { at ≤ length out.now },
}

impl<'a> SliceSink<'a> {
    // A sink that writes from the memory's start on.
    pub fn new(out: &'a mut [u8]) -> SliceSink<'a>
        ensures { ⟦<SliceSink<'a> as Sink>⟧.state result ≡ started out.entry.ghost_name out.old }
    {
        SliceSink { out, at: 0 }
    }

    // How many bytes are written.
    pub fn written(&self) -> usize
        ensures { result ≡ length (⟦<SliceSink<'a> as Sink>⟧.state self.now).meaning.front }
    {
        self.at
    }
}

impl<'a> Sink for SliceSink<'a> {
    ghost Meaning = { Written };

    ghost state = { λ s. slice_state s.out.ghost_name s.at s.out.now };

    ghost moved = { wrote };

    ghost laws = { wrote_laws };

    fn space(&self) -> u64 {
        (self.out.len() - self.at) as u64
    }

    fn put(&mut self, run: &[u8]) -> Result<(), Full> {
        // Tried: `get_mut(self.at..end)` with `ok_or(Full)?` or `let else` in place of the test. The proof of what stays in the memory did not close.
        if run.len() > self.out.len() - self.at {
            return Err(Full);
        }
        let end = self.at + run.len();
        self.out[self.at..end].copy_from_slice(run);
        self.at = end;
        Ok(())
    }
}

// Writes the run at the memory's start and answers its length; where it does not fit, the memory stays as it is.
pub fn put_into(out: &mut [u8], run: &[u8]) -> Result<usize, Full>
    ensures answer { MatchResult result (λ n. n ≡ length run.now) (λ _. length out.old < length run.now) }
    ensures memory { MatchResult result (λ _. out.new ≡ run.now ++ drop (length run.now) out.old) (λ _. out.new ≡ out.old) }
{
    let mut sink = SliceSink::new(out);
    sink.put(run)?;
    Ok(sink.written())
}

// Things of one kind, of which a payload holds so many, one behind the other.
ghost use Rattle.std.specs.Prelude.{ℕ, List};
ghost use Rattle.items.specs.Reads.{Outcome, nothing, times, numbered, fold};
ghost use Rattle.trees.specs.Steps.{On};
ghost use Rattle.trees.specs.Tellings.{Tells};

use crate::receiver::Receiver;
use crate::telling::Telling;

// Those that know their number, the first that of 0.
pub trait Numbered {
    type Fault;

    // what one says
    ghost Tree: { Type 0 };

    // what that of a number is, at a place in the bytes
    ghost one: { Self → ℕ → List ℕ → ℕ → Outcome Self.Fault Tree };

    // how it is told
    ghost tell: { Self → {M : Type 0} → (M → On → M) → M → Tree → M };

    fn read<R: Receiver>(
        &self,
        number: u64,
        from: &mut Telling<'_, '_, R>,
    ) -> Result<(), Self::Fault>
        ensures { Tells R.Receiver (tell self.now) nothing result from.old from.new (one self.now number) };
}

// Reads so many of a kind, and tells each its number.
pub fn read_numbered<R: Receiver, T: Numbered>(
    kind: &T,
    count: u64,
    from: &mut Telling<'_, '_, R>,
) -> Result<(), T::Fault>
    ensures { Tells R.Receiver (λ act. fold (T.Numbered.tell kind.now act)) nothing result from.old from.new (λ bytes. numbered count (λ i. T.Numbered.one kind.now i bytes) 0) }
{
    for number in 0..count {
        kind.read(number, from)?;
    }
    Ok(())
}

// Those that do not know it.
// A trait of its own: else seven kinds would take a number that they do not look at. And types, not closures: a type says what one is and how it is told.
pub trait Repeated {
    type Fault;

    // what one says
    ghost Tree: { Type 0 };

    // what one is, at a place in the bytes
    ghost one: { Self → List ℕ → ℕ → Outcome Self.Fault Tree };

    // how it is told
    ghost tell: { Self → {M : Type 0} → (M → On → M) → M → Tree → M };

    fn read<R: Receiver>(&self, from: &mut Telling<'_, '_, R>) -> Result<(), Self::Fault>
        ensures { Tells R.Receiver (tell self.now) nothing result from.old from.new (one self.now) };
}

// A kind whose things do not look at their number.
#[derive(Clone, Copy, Debug, PartialEq, Eq)]
struct Unnumbered<'k, T>(&'k T);

impl<'k, T: Repeated> Numbered for Unnumbered<'k, T> {
    type Fault = T::Fault;

    ghost Tree = { T.Repeated.Tree };

    ghost one = { λ s _. T.Repeated.one s.0.now };

    ghost tell = { λ s. T.Repeated.tell s.0.now };

    fn read<R: Receiver>(
        &self,
        _number: u64,
        from: &mut Telling<'_, '_, R>,
    ) -> Result<(), T::Fault> {
        self.0.read(from)
    }
}

// Reads so many of a kind.
pub fn read_times<R: Receiver, T: Repeated>(
    kind: &T,
    count: u64,
    from: &mut Telling<'_, '_, R>,
) -> Result<(), T::Fault>
    ensures { Tells R.Receiver (λ act. fold (T.Repeated.tell kind.now act)) nothing result from.old from.new (λ bytes. times count (T.Repeated.one kind.now bytes)) }
{
    read_numbered(&Unnumbered(kind), count, from)
}

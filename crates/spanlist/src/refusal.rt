// Why a payload is not listed.
ghost use Rattle.std.specs.Prelude.{◌≡◌};
ghost use Rattle.spanlist.specs.declared.refusal.Refusal.TheVariants.{Fault as OfReading, Memory as NoMemory};
ghost use Rattle.spanlist.specs.Refusals.{refusal_number};

use faults::PayloadFault;
use keyed::list::Shortage;
use std::alloc::{AllocError, AllocFailed};

#[derive(Clone, Copy, Debug, PartialEq, Eq)]
pub enum Refusal {
    // the reading's first fault
    Fault(PayloadFault),
    // more traces or spans than a listing holds
    Shortage,
    // more bytes than a listing takes
    TooLong,
    // no memory
    Memory,
}

impl Refusal {
    // The number by which documents know the refusal, a rule of the project; want of memory has none.
    pub fn number(self) -> Option<u8>
        ensures { result ≡ refusal_number self }
    {
        match self {
            Refusal::Fault(fault) => Some(fault.cause().number()),
            Refusal::Shortage => Some(Shortage.number()),
            Refusal::TooLong => Some(8),
            Refusal::Memory => None,
        }
    }
}

// Each `From` is written out: it says what it gives, which a derived one does not.
impl From<PayloadFault> for Refusal {
    ghost from_gives = { λ e r. r ≡ OfReading e };

    fn from(e: PayloadFault) -> Refusal {
        Refusal::Fault(e)
    }
}

impl From<AllocError> for Refusal {
    ghost from_gives = { λ _ r. r ≡ NoMemory };

    fn from(_e: AllocError) -> Refusal {
        Refusal::Memory
    }
}

// A push that fails gives back what it was to push; here no code pushes so, but a caller may.
impl<T: Drop> From<AllocFailed<T>> for Refusal {
    ghost from_gives = { λ _ r. r ≡ NoMemory };

    fn from(_e: AllocFailed<T>) -> Refusal {
        Refusal::Memory
    }
}

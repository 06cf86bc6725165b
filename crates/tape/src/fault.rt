// Why a tape is not written or not read.
ghost use Rattle.std.specs.Prelude.{◌≡◌};
ghost use Rattle.tape.specs.declared.fault.WriteFault.TheVariants.{NoWarning};
ghost use Rattle.tape.specs.declared.fault.Failure.TheVariants.{Fault, Memory};
ghost use Rattle.tape.specs.Refusals.{of_write, of_tape, offset_of};

use std::alloc::{AllocError, AllocFailed};
use warning::{Refusal, Values, WarningFault};

// Why a warning was not written.
#[derive(Clone, Copy, PartialEq, Eq, Debug)]
pub enum WriteFault {
    NoWarning(WarningFault),
    // the octets that it takes, and those that the memory has left
    Full { cost: usize, free: usize },
}

impl From<WarningFault> for WriteFault {
    ghost from_gives = { λ f r. r ≡ NoWarning f };

    fn from(f: WarningFault) -> WriteFault {
        WriteFault::NoWarning(f)
    }
}

// Why octets are no tape.
#[derive(Clone, Copy, PartialEq, Eq, Debug)]
pub enum TapeFault {
    // an octet that no tape can have there: the place of its operand
    Unknown { offset: usize },
    // the input's end inside a warning: the input's length
    Ended { offset: usize },
}

impl From<WriteFault> for Refusal {
    ghost from_gives = { λ f r. r ≡ of_write f };

    fn from(fault: WriteFault) -> Refusal {
        match fault {
            WriteFault::NoWarning(fault) => fault.into(),
            WriteFault::Full { cost, free } => Refusal {
                number: 12,
                values: Values::Two(cost, free),
            },
        }
    }
}

impl TapeFault {
    // The offset at which the tape is refused.
    pub fn offset(self) -> usize
        ensures { result ≡ offset_of self }
    {
        match self {
            TapeFault::Unknown { offset } => offset,
            TapeFault::Ended { offset } => offset,
        }
    }
}

impl From<TapeFault> for Refusal {
    ghost from_gives = { λ f r. r ≡ of_tape f };

    fn from(fault: TapeFault) -> Refusal {
        let number = match fault {
            TapeFault::Unknown { .. } => 18,
            TapeFault::Ended { .. } => 19,
        };
        Refusal {
            number,
            values: Values::One(fault.offset()),
        }
    }
}

// Why a call that needs memory failed: by a fault, or because memory was
// wanting.
#[derive(Clone, Copy, PartialEq, Eq, Debug)]
pub enum Failure<F> {
    Fault(F),
    Memory,
}

// Why a tape was not read.
pub type ReadError = Failure<TapeFault>;

// Why a list of warnings was not written.
pub type WriteError = Failure<WarningFault>;

// Kept: one impl for every `F` would overlap with that for `AllocError`.
impl From<TapeFault> for ReadError {
    ghost from_gives = { λ f r. r ≡ Fault f };

    fn from(f: TapeFault) -> ReadError {
        Failure::Fault(f)
    }
}

impl From<WarningFault> for WriteError {
    ghost from_gives = { λ f r. r ≡ Fault f };

    fn from(f: WarningFault) -> WriteError {
        Failure::Fault(f)
    }
}

impl<F> From<AllocError> for Failure<F> {
    ghost from_gives = { λ _ r. r ≡ Memory };

    fn from(_e: AllocError) -> Failure<F> {
        Failure::Memory
    }
}

impl<F, T: Drop> From<AllocFailed<T>> for Failure<F> {
    ghost from_gives = { λ _ r. r ≡ Memory };

    fn from(_e: AllocFailed<T>) -> Failure<F> {
        Failure::Memory
    }
}

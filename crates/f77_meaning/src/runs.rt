//! What a run comes to.

use std::alloc::AllocError;
use thiserror::Error;

/// Actions of which no rule says what they do: a cell without a value of its type is read, a subscript is outside its bounds, an actual
/// argument is shorter than its dummy array, a dummy array has a size below 1, a divisor is 0, and so is the step of a DO.
#[derive(Clone, Copy, Debug, Drop, PartialEq, Eq)]
pub enum Undefinedness {
    Cell,
    Subscript,
    ShortActual,
    Extent,
    Divisor,
    Step,
}

/// What a run is before a further step would begin: it goes on, it ended with a status, or it met an undefined action in this step,
/// counted from 1.
#[derive(Clone, Copy, Debug, Drop, PartialEq, Eq)]
pub enum Run {
    Going,
    Ended(u8),
    Undefined(u64, Undefinedness),
}

/// Why a run isn't told.
#[derive(Clone, Copy, Debug, Drop, Error, PartialEq, Eq)]
pub enum InterpretRefused {
    #[error("the sink failed")]
    WriteFault,
    #[error("out of memory")]
    OutOfMemory,
}

impl From<AllocError> for InterpretRefused {
    ghost use Rattle.std.specs.Prelude.{◌≡◌};
    ghost use Rattle.f77_meaning.specs.declared.runs.InterpretRefused.TheVariants.{OutOfMemory};

    ghost from_gives = { λ e r. r ≡ OutOfMemory };

    fn from(_: AllocError) -> InterpretRefused {
        InterpretRefused::OutOfMemory
    }
}

//! Why a run stops.

use std::alloc::AllocError;

/// Why a run stops: no step is left, the program ended with a status, an action was undefined, it is no program, or there was no
/// memory.
#[derive(Clone, Copy, Debug, Drop, PartialEq, Eq)]
pub enum Stop {
    Spent,
    Ended(u8),
    Undefined(u8),
    Stuck,
    OutOfMemory,
}

impl From<AllocError> for Stop {
    ghost use Rattle.std.specs.Prelude.{◌≡◌};
    ghost use Rattle.interp_steps.specs.declared.stop.Stop.TheVariants.{OutOfMemory};

    ghost from_gives = { λ e r. r ≡ OutOfMemory };

    fn from(_: AllocError) -> Stop {
        Stop::OutOfMemory
    }
}

//! Why the run of a program is left.

use interp_steps::Stop;
use std::alloc::AllocError;

/// The run stopped, or the sink of its output failed.
#[derive(Clone, Copy, Debug, Drop, PartialEq, Eq)]
pub enum Halt {
    Stop(Stop),
    WriteFault,
}

impl From<AllocError> for Halt {
    ghost use Rattle.std.specs.Prelude.{◌≡◌};
    ghost use Rattle.interp_steps.specs.declared.stop.Stop.TheVariants.{OutOfMemory};
    ghost use Rattle.interp_calls.specs.declared.halt.Halt.TheVariants as halt;

    ghost from_gives = { λ e r. r ≡ halt.Stop OutOfMemory };

    fn from(_: AllocError) -> Halt {
        Halt::Stop(Stop::OutOfMemory)
    }
}

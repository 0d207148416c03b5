//! What is wrong with a source, and where.
ghost use Rattle.std.specs.Prelude.{◌≡◌};

use super::name::Name;
use std::alloc::AllocError;
use thiserror::Error;

/// A line of a unit, or of the text where there is no unit. Lines are numbered from 1.
#[derive(Debug, Drop)]
pub struct Place {
    pub unit: Option<Name>,
    pub line: u32,
}

/// A fault by its number, where it shows, and the limit that fault 37 tells (0 in all others).
#[derive(Debug, Drop)]
pub struct SourceFault {
    pub number: u8,
    pub place: Place,
    pub limit: u64,
}

/// Why a call gave no answer.
#[derive(Debug, Drop, Error)]
pub enum Refused {
    #[error("the source has a fault")]
    Fault(SourceFault),
    #[error("out of memory")]
    OutOfMemory,
}

impl From<AllocError> for Refused {
    ghost use Rattle.f77_tree.specs.declared.fault.Refused.TheVariants.{OutOfMemory};

    ghost from_gives = { λ _ e. e ≡ OutOfMemory };

    fn from(_: AllocError) -> Refused {
        Refused::OutOfMemory
    }
}

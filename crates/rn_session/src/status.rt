//! How a command ended.
ghost use Rattle.std.specs.Prelude.{◌≡◌};
ghost use Rattle.rn_session.specs.Statuses.{number_of_status};

use fixed_form::SourceFault;
use rv_machine::TrapCause;

/// How a command ended.
#[derive(Debug, Drop)]
pub enum Status {
    /// It was done, and its reply was written.
    Ok,
    /// The source has this fault.
    SourceFault(SourceFault),
    /// The words are no command's.
    BadWords,
    /// The source of the input failed.
    ReadFault,
    /// The sink failed while output was written, or the reply of a command that was done.
    WriteFault,
    OutOfMemory,
    /// The machine still runs after the steps that it was given.
    StepsSpent,
    /// The machine stopped at the instruction of this address.
    Trapped(u64, TrapCause),
}

impl Status {
    /// The exit status of the process.
    pub fn number(&self) -> u8
        ensures { result ≡ number_of_status self.now }
    {
        match self {
            Status::Ok => 0,
            Status::SourceFault(_) => 1,
            Status::BadWords => 2,
            Status::ReadFault => 3,
            Status::WriteFault => 4,
            Status::OutOfMemory => 7,
            Status::StepsSpent => 13,
            Status::Trapped(_, _) => 14,
        }
    }
}

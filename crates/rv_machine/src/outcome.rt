//! How a run stands.

/// Why an instruction was not done. A trap changes nothing but the outcome.
#[derive(Clone, Copy, PartialEq, Eq, Debug, Drop)]
pub enum TrapCause {
    /// An access at no multiple of its size, or a jump to no multiple of 4.
    Misaligned,
    /// A byte outside the segments, a store to the code, or a fetch outside it.
    Unmapped,
    /// A word that is no instruction that runs.
    UnknownWord,
    /// EBREAK.
    Breakpoint,
    /// ECALL with a number that is none of the calls.
    UnknownCall,
}

/// Where a run stands. `Halted` has the status, `Trap` the pc of the instruction.
#[derive(Clone, Copy, PartialEq, Eq, Debug, Drop)]
pub enum Outcome {
    Running,
    Halted(u8),
    Trap(u64, TrapCause),
}

/// The sink failed. Its count of faults tells when.
#[derive(Clone, Copy, PartialEq, Eq, Debug, Drop)]
pub struct WriteFault;

//! A machine that runs RISC-V programs: registers, pc and a memory of two segments.
#![tactic(auto)]

mod bytes;
mod calls;
mod kept;
mod laws;
mod loading;
mod machine;
mod memory;
mod outcome;
#[cfg(test)]
mod tests;

pub use kept::Machine;
pub use laws::{end_law, run_law};
pub use loading::ElfRefused;
pub use outcome::{Outcome, TrapCause, WriteFault};

//! The interpreter: it runs a program with its input, as the meaning says.
#![tactic(auto)]

mod interpreter;
mod marks;
mod places;
mod procedures;
mod program;
mod runs;
mod start;

pub use interpreter::interpret;
pub use runs::{InterpretRefused, Run, Undefinedness};

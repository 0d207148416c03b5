//! A plain interpreter of bodies, which tests run bodies with.
//!
//! `run` does what `ir_core`'s `run_body` says, with what is called at the body's sites given by the caller as a
//! `Callees`. It keeps storage, input, output and steps in the `State` of the interpreter of units, and looks at one
//! instruction after another; nothing is prepared.
#![tactic(auto)]

mod callees;
mod calls;
mod ends;
mod instructions;
mod memory;
mod runs;
mod spots;
mod values;
mod words;

pub use callees::Callees;
pub use runs::run;
pub use spots::Activation;

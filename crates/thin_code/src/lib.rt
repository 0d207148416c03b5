//! What thin programs mean, their code, and that the executable agrees with the program.
//!
//! `Agrees` says what an executable owes to a meaning, which is any function from an input and a number of steps to a
//! run, on inputs of integers of 64 bits (`run_inputs`), under two numbers that bound instructions by steps and steps
//! by instructions. Here the meaning is this crate's own `Source`, the run of the thin statements, a step each;
//! `thin_meaning` says that it is the meaning of the units. The proof has two halves that meet in the memory: a piece
//! of code makes of a memory what the machine says (`proofs/Acting`, `Sums`, `Prints`, `Bodies`), and a statement makes
//! of cells what its piece makes of the memory that holds them (`Sourced`, `Performed`, `Stepped`).
#![tactic(auto)]

mod area;
mod names;
mod pieces;
mod program;
mod statements;

pub use program::program_file;

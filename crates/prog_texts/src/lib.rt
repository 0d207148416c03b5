//! What the units of a program tell each other: what each is to its callers, and what each text says.
//!
//! `program_of` makes the two once, from the facts of each unit: a table of signatures by the units' names
//! (`specs/Signatures`), and for each unit its sites, its COMMON blocks and its dummies that stand for procedures,
//! in the order of its text (`specs/Mentions`, one fold over expressions and forms). The checks of a program read
//! only these.
#![tactic(auto)]

mod mentions;
mod programs;
mod signatures;
mod texts;

pub use mentions::{Actual, Mention, Site, Wanted};
pub use programs::{Program, program_of};
pub use signatures::{Dummy, Shape, Signature};
pub use texts::mentions_with;

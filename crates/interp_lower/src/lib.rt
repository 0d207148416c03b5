//! A unit for the interpreter: the steps and the ending of each statement, and the steps of the bounds of its dummy arrays.
//!
//! Made once for each unit. A statement's first site follows the callees of the statements before it; what has no
//! meaning has a step at which a run is stuck, and its sites are counted all the same. `StandsFor` relates all this
//! to `source.routine` of the unit, field by field, and leaves out only where control goes, which `f77_flow`'s
//! `Control` says. `routine_of` fails where memory runs out, and where sites, elements or a dimension are more than
//! any memory has room for.
#![tactic(auto)]

mod arrays;
mod lines;
mod numbers;
mod piece;
mod routine;
mod simple;
mod sites;
mod steps;
mod targets;
mod terms;

pub use arrays::DummyArray;
pub use piece::{Line, Piece};
pub use routine::{Cells, Routine, routine_of};

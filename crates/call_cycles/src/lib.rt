//! Cycles among the calls of a program, and the marks of a program's faults.
//!
//! A program's calls are searched for a cycle in a time that grows with its units and sites. `ranks` numbers the
//! strongly connected components by two walks, so that no site leads to a greater rank. Nothing is proved of these
//! walks but that they are safe: a look at each site checks the ranks, and where one led up, all units would have
//! the same rank. Along a chain that comes back all ranks are the same, so a unit without a site to its own rank
//! lies on no cycle, and only for the others one search goes backwards along `callers`. With ranks that are right
//! the first of them lies on a cycle; with others the answer is the same, in units times sites at worst. The first
//! of the unit's sites that leads to what the search found is the one that is told.
#![tactic(auto)]

mod callers;
mod cycles;
mod marks;
mod ranks;
mod searches;

pub use cycles::{Edge, cycle_fault};
pub use marks::{ProgramMark, first_of, mark_at};

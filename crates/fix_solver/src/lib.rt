//! The least solution of a system of equations over a lattice.
//!
//! A type is a `System` where it gives its nodes, numbered from 0, their names and sources, and `evaluate`, and
//! proves the laws of `IsSystem`: a value of a node that `fits` rises at most `rank` times; the bottom fits, joins
//! of what fits do, and so does what the equations give of it; and an equation's value rises with those of its
//! sources and with no others. A layer above may rely on the clauses of `solve` and on nothing else:
//!
//! - `known` says that the system is one, so that all its laws hold. `solution` says that each value fits and is
//!   what its equation gives, and `least` that it is below that of every other such list.
//! - `notes` says that the evaluations were noted, each with its node's name, and how many there are at most, also
//!   where memory ran out. `once` says that there is one for each node, in the order of their numbers, where each
//!   source has a smaller number than its node. No clause ties a note to an evaluation.
//!
//! A caller says what its values mean by `fits`. Let a value fit a node only where it is true of the node, as that
//! a flag is on only where a chain of edges leads to it: then the solution's values are true, and that they miss
//! nothing follows along the chain from the equations. Three systems in the tests do so: which nodes one reaches,
//! the meet of the numbers that come to a node, and the shortest name for each letter.
#![tactic(auto)]

mod least;
mod readers;
mod system;
mod worklist;

pub use least::solve;
pub use system::System;

#[cfg(test)]
mod tests;

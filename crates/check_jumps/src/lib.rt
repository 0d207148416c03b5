//! The faults of a unit in its labels, jumps, DOs and block IFs.
//!
//! Two questions are asked of intervals that may overlap in any way: whether one holds a statement and not another,
//! and whether one that holds a statement ends before another. Both are look-ups in tables of the greatest begin
//! and the least end of the intervals that hold each place. Such a table is made in one pass along its own entries,
//! the stack of a sweep. The conditions themselves are `f77_flow`'s `Checks`.
#![tactic(auto)]

mod faults;
mod intervals;
mod jumps;
mod labels;
mod lasts;
mod nesting;
mod nests;
mod parts;

pub use faults::jump_fault;

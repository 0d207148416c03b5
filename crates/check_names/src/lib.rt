//! The faults of a unit on names and their attributes.
#![tactic(auto)]

mod attribute;
mod conflicts;
mod dummies;
mod faults;
mod givings;
mod large_arrays;
mod texts;
mod untyped;

pub use faults::name_fault;

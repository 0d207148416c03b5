//! The faults of a unit in DATA.
#![tactic(auto)]

mod counts;
mod data;
mod data_items;
mod elements;
mod given;
mod measures;
mod passes;
mod repeats;
mod runs;

pub use fault_marks::Mark;
pub use passes::data_fault;

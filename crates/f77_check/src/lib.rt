//! The checks of a unit.
#![tactic(auto)]

mod check;

pub use check::check_unit;

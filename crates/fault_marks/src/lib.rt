//! Faults of a unit by their lines, and which of several comes first.
//!
//! The frame of all checks of a unit. A fault is a condition on the unit and a statement, and each condition is a
//! definition by itself, total for units with other faults too. `ShowsAt` says that a statement at which a
//! condition holds shows the fault of a number and a limit, and `Earliest` that a mark is the first of those that
//! show. A check is a table with a flag for each statement, proved to tell where the condition holds, and
//! `earliest_flagged` of it; `either` and `mapped` (`proofs/Firsts`) put checks together.
#![tactic(auto)]

mod flags;
mod marks;
mod refusals;

pub use flags::earliest_flagged;
pub use marks::{Mark, first_of, mark_if};
pub use refusals::refusal;

#[cfg(test)]
mod tests;

//! What an accepted text is to those that run it: units that a text gives and that passed their checks, with different names, whose
//! program is never stuck.
#![tactic(auto)]

mod laws;

pub use laws::{accepted_law, names_law, trees_law};

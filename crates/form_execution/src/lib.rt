//! The executable statements, by their texts or the tokens behind their words.
#![tactic(auto)]

mod assignments;
mod control;
mod input_output;
mod transfer;

pub use assignments::assignment;
pub use control::{do_form, test};
pub use input_output::{print, read};
pub use transfer::{arithmetic_if, call, go_to, stop};

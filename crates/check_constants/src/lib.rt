//! The first statement of a unit that needs a constant expression and has none, and what the text before a place
//! defines: named constants and their values, for the checks of DATA too.
#![tactic(auto)]

mod defined;
mod expressions;
mod names;
mod needed;
mod passes;

pub use defined::{Defined, define_in};
pub use fault_marks::Mark;
pub use needed::is_constant;
pub use passes::constant_fault;

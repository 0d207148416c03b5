//! Thin statements: assignments of sums, PRINT statements and END, as trees have them.
#![tactic(auto)]

mod forms;
mod statement;

pub use forms::thin_statement;
pub use statement::{Addend, Item, Sign, Statement, Term};

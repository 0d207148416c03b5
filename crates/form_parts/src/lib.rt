//! What all statements are made of: lists of tokens with commas between, names, variables and expressions.
#![tactic(auto)]

mod lexed_parts;
mod part_lists;
mod reading;
mod variables;

pub use lexed_parts::{tokens_of, whole_expression};
pub use part_lists::{Entry, Part, chained, listed, parenthesized, whole};
pub use reading::{behind_comma, eat, front, name};
pub use variables::{ExpressionPart, VariablePart};

//! Tokens of a statement's text, and the expressions that stand in them.
#![tactic(auto)]

mod building;
mod depth;
mod fault;
mod fronts;
mod laws;
mod lexer;
mod parser;
mod readings;
mod token;

pub use f77_tree::{Box, Expr, List, Name, Op, Place, Refused, SourceFault};
pub use laws::lexes_law;
pub use lexer::{token_count, tokens};
pub use parser::{expression, leading_expression, whole_expression};
pub use readings::readings_law;
pub use token::{Kind, Rule, Token, next, operator};

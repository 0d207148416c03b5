//! Texts and numbers as the lines of a table have them. A table stands in a program's standard input, and the program prints
//! what it finds for each line of it.
#![tactic(auto)]

mod display;
mod header;
mod notation;
mod statements;

pub use display::shown;
pub use header::{numbers_behind, text_behind, turns_behind};
pub use notation::push_text;
pub use statements::source_of;

//! Rows of the tables that programs read from standard input, and what is printed of each.
//!
//! A line of the input that begins with `#` is a comment, and an empty one says nothing. A line that begins with `@` names
//! what is asked of the rows behind it, and is printed again. Each other line is a row; it is printed again, with ` => ` and
//! the answer behind it.
#![tactic(auto)]

mod heads;
mod print;
mod row;

pub use heads::{put_head, word_of};
pub use print::{put, put_byte, put_integer, put_mark, put_names, put_number, put_refusal};
pub use row::{answered, expanded, is_comment};

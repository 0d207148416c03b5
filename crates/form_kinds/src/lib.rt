//! The kind of a statement by its text alone: what it is before its parts are read, the word with which it begins, and
//! whether this language lacks it.
#![tactic(auto)]

mod foreign;
mod keywords;
mod labels;
mod scans;
mod statement_kinds;

pub use foreign::is_foreign;
pub use keywords::{Keyword, keyword_of};
pub use labels::{digit_run, is_digit, label_of};
pub use scans::first_outside;
pub use statement_kinds::{StatementKind, do_head, if_parts, statement_kind};

//! The forms of statements: from the text of a statement to its tree.
#![tactic(auto)]

mod bare_forms;
mod depth;
mod form;
mod head_forms;
mod laws;
mod word_forms;

pub use f77_tree::{DataConst, Declarator, Expr, Form, List, Name, TypeWord};
pub use form::form_of;
pub use form_kinds::is_foreign;
pub use laws::forms_law;

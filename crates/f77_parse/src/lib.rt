//! From the statements of a unit to its tree, or its first fault.
#![tactic(auto)]

mod class;
mod context;
mod laws;
mod statement;
mod unit;

pub use f77_tree::{Refused, Unit};
pub use fixed_form::UnitText;
pub use laws::{end_law, head_law, read_law};
pub use statement::form_at;
pub use unit::{ends_by_end, parse_unit};

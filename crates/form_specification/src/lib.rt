//! The specification statements, by the tokens behind their words.
#![tactic(auto)]

mod common_blocks;
mod dimensions;
mod implicit_types;
mod initial_values;
mod name_lists;
mod named_constants;
mod saved;
mod saved_items;

pub use common_blocks::common;
pub use dimensions::{arrays, declarators};
pub use implicit_types::implicit;
pub use initial_values::data;
pub use name_lists::names;
pub use named_constants::parameter;
pub use saved_items::save;

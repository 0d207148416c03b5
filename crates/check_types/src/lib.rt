//! The faults of a unit in its expressions and targets.
#![tactic(auto)]

mod breaks;
mod exponents;
mod expression_types;
mod overreaching;
mod places;
mod scalars;
mod subscripts;
mod targets;
mod type_faults;
mod wrong_types;

pub use breaks::{Rule, definition_breaks, form_breaks};
pub use exponents::{Reckoned, has_wrong_exponent, reckon};
pub use expression_types::{expression_type, gives, plain_type, takes};
pub use places::{Place, member_place, wanted};
pub use scalars::is_misplaced;
pub use subscripts::is_miscounted;
pub use targets::{is_no_element, is_no_variable, target_type};
pub use type_faults::type_fault;
pub use wrong_types::{differs, is_mistyped};

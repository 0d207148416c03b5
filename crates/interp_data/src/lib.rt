//! What the names of a unit stand for, and what SAVE and DATA say of its cells.
//!
//! What DATA gives stays in spans: items and constants are gone through together, so a repeat of 16,000,000 is one
//! span. `Lookup` has the facts and the slots of a unit and tells what a name stands for, those with a slot by a
//! table that is made once.
#![tactic(auto)]

mod kept;
mod lookup;
mod meaning;
mod meant;
mod spans;
mod standing;
mod values;

pub use kept::kept_of;
pub use lookup::Lookup;
pub use meaning::Meaning;
pub use meant::meaning_of;
pub use spans::Span;
pub use standing::{copy_array, copy_base};
pub use values::initial;

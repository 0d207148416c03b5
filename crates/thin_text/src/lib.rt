//! Thin programs as texts: units that are one unit of assignments of sums, PRINT statements and END.
#![tactic(auto)]

mod laws;
mod thin;

pub use laws::sizes_law;
pub use thin::{Thin, thin_of};

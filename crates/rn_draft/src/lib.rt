//! The units of a program that is being written, and whether they are a program.
#![tactic(auto)]

mod accepted;
mod drafts;
mod laws;

pub use accepted::accept;
pub use drafts::drafted;
pub use laws::drafts_law;

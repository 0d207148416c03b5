//! The faults of a program, and which comes first.
#![tactic(auto)]

ghost use Rattle.prog_check.specs.Sites.{SitesAreCallees};

mod checks;
mod initialised;
mod limits;
mod scans;
mod verdict;

pub use checks::Check;
pub use initialised::initial_fault;
pub use limits::{Measure, limit_fault};
pub use scans::{main_fault, text_fault};
pub use verdict::check_program;

/// The sites of a unit are in their order the callees of its layout, so a number of a site means the same to both.
pub fn sites_law()
    ensures callees { SitesAreCallees }
{}

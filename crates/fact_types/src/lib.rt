//! What is known of each unit of a program: its sites and their actuals, what a call may change and read, the pairs of
//! its items, and the constants at its entry.
//!
//! `facts_of` cuts the facts of a whole program to a unit's own items. `satisfied` tells whether a record still holds
//! of new facts, and `first_broken` names the first reason where it doesn't.
#![tactic(auto)]

mod broken;
mod cut;
mod facts;
mod jumps;
mod own;
mod records;
mod sites;

pub use broken::{Reason, first_broken};
pub use cut::facts_of;
pub use facts::{Facts, SiteFacts};
pub use jumps::{Jump, JumpEntry, Summary, UnitSummary};
pub use own::own_items;
pub use records::satisfied;
pub use sites::{Actual, Effects, Graph, Site};

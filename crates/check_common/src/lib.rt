//! What the DATA of a program initialises in COMMON, and where it does so again.
#![tactic(auto)]

mod again;
mod initials;
mod offsets;
mod order;
mod places;
mod runs;
mod storage;

pub use again::{Again, initialised_again};
pub use initials::Initial;
pub use places::{Start, Units};
pub use runs::Run;
pub use storage::Storage;

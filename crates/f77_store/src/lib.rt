//! The storage of a unit: areas, slots, the layout of COMMON, and sites.
//!
//! What `f77_names` found of a unit becomes storage, each table with a definition of its own:
//!
//! 1. `lay_out` puts the members of areas behind each other, and gives the total of each (`specs/Areas`). It serves
//!    COMMON, and then the local area as one block without a name.
//! 2. `slots_of`, `blocks_of` and `callees_of` read off the rest (`specs/Layouts`).
//!
//! The definitions are total: a check and `layout` speak of the same bounds, the same values and the same sizes. No
//! law says yet that places don't overlap.
#![tactic(auto)]

mod areas;
mod layouts;
mod sites;
mod storage;

pub use areas::{Areas, Member, Place, blocks_of, commons_of, lay_out, size_of, so_far};
pub use layouts::layout;
pub use storage::{Area, Layout, Slot};

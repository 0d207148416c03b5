//! Sets of items of storage, kept as runs.
//!
//! Items stand in an order: dummies by position, units of the local area by offset, units of COMMON blocks by the
//! block's name and offset. `Ranges` is a finite set of them. Contracts speak of its members alone (`has_item`), and
//! of inclusion (`leq`); `within` says that sets with the same members are the same.
//!
//! A set is kept as the rising list of the places at which its runs begin, and of those behind the last of each run.
//! Since they rise, no two runs touch, and an array of any size is one run. Each operation on two sets goes through
//! both lists once.
//!
//! `add` of a run that begins at the end of the set or behind it takes no walk, so runs that are added in their order
//! take a time that grows with their number alone.
//!
//! Ranges are a `Lattice` of `rn_lattice`: the empty set is the bottom, and a join is the union.
#![tactic(auto)]

mod bound;
mod ranges;
mod walk;

pub use bound::{Area, Bound, compare, compare_to_item, item_at, next, place};
pub use ranges::Ranges;

#[cfg(test)]
mod tests;

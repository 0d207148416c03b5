//! Pairs of items of storage, and values of items.
//!
//! `Pairs` is a finite symmetric relation of which one member of each pair is a dummy (`paired`). It is kept as a map
//! from each dummy to the items that it is paired with, without the dummies before it; so each pair stands once, and
//! equal relations are equal maps.
//!
//! `Constants` is a finite map from items to values (`get`). It is kept as the rising list of the places at which the
//! value turns, so a run of items with one value is one entry, and equal maps are equal lists.
#![tactic(auto)]

mod constants;
mod pairs;
mod step;
mod walk;

pub use constants::Constants;
pub use pairs::Pairs;
pub use step::Step;

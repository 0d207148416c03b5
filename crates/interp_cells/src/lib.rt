//! The cells of a program that runs.
#![tactic(auto)]

mod row;
mod spot;
mod storage;
mod unit_cells;

pub use row::Row;
pub use spot::{Area, Spot};
pub use storage::Storage;
pub use unit_cells::{Seat, UnitCells};

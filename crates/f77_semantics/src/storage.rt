//! Where the names of a unit stand.

use f77_tree::{List, Name};

/// A dummy by its position, the local area or a COMMON block from an offset on.
#[derive(Drop)]
pub enum Base {
    Dummy(u32),
    Own(u32),
    Common(Name, u32),
}

/// A dimension: its lower bound, and its number of subscripts.
#[derive(Clone, Copy, Debug, Drop, PartialEq, Eq)]
pub struct Extent {
    pub lower: i64,
    pub size: u64,
}

/// The bounds of an array, which for a dummy are fixed at the entry.
#[derive(Drop)]
pub enum Bounds {
    Known(List<Extent>),
    AtEntry(u32),
}

/// An array. The length is that of one that is no dummy.
#[derive(Drop)]
pub struct Array {
    pub base: Base,
    pub length: u32,
    pub bounds: Bounds,
}

/// Storage units of the local area, `length` of them from `from` on.
#[derive(Clone, Copy, Debug, Drop, PartialEq, Eq)]
pub struct Kept {
    pub from: u32,
    pub length: u32,
}

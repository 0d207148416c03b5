//! Where a value may stand.

use f77_tree::Name;

/// A COMMON block, the local area of a unit, or the cell that an actual argument without a location gets at a site, by its position
/// there.
#[derive(Clone, Copy, Drop)]
pub enum Area<'a> {
    Block(&'a Name),
    Local(&'a Name),
    Fresh(&'a Name, usize, usize),
}

/// An area, and how many storage units lie before the location there.
#[derive(Clone, Copy, Drop)]
pub struct Spot<'a> {
    pub area: Area<'a>,
    pub offset: usize,
}

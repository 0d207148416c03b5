//! What a SAVE statement names.
use f77_tree::Name;

/// A variable or an array, or a block of COMMON.
#[derive(Drop)]
pub enum Saved {
    Name(Name),
    Block(Name),
}

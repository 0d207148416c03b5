//! Statements as steps and endings.
use f77_tree::List;
use interp_code::{Ending, Step};

/// The steps of a statement, and what it makes of the operands that they leave.
#[derive(Drop)]
pub struct Piece {
    pub steps: List<Step>,
    pub ending: Ending,
}

/// A statement of a unit, and of a logical IF also the statement inside.
#[derive(Drop)]
pub struct Line {
    pub piece: Piece,
    pub inner: Option<Piece>,
}

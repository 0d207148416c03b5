//! What a unit's text says to the program: its sites, its COMMON blocks, and where a dummy stands for a procedure.
use f77_tree::{List, Name, Ty};

/// What a site wants its callee to be: a subroutine, or a function with this type.
#[derive(Clone, Copy, Debug, Drop)]
pub enum Wanted {
    Subroutine,
    Function(Option<Ty>),
}

/// An actual argument: whether it is the name of an array, an element of an array, a name of EXTERNAL or INTRINSIC, and its type.
#[derive(Clone, Copy, Debug, Drop)]
pub struct Actual {
    pub is_array: bool,
    pub is_element: bool,
    pub is_procedure: bool,
    pub ty: Option<Ty>,
}

/// A CALL, or a reference to a function, with the line of its statement.
#[derive(Drop)]
pub struct Site {
    pub line: u32,
    pub callee: Name,
    pub wanted: Wanted,
    pub actuals: List<Actual>,
}

/// What a statement says to the program.
#[derive(Drop)]
pub enum Mention {
    Site(Site),
    /// A COMMON block, and the line of its statement.
    Block(Name, u32),
    /// The line of a statement in which a dummy is called, stands in EXTERNAL, or has a list and is no array.
    DummyProcedure(u32),
}

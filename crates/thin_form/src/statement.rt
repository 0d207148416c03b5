//! Statements as trees.
use f77_tree::{List, Name};

/// A variable, or an integer from 0 to 9223372036854775807.
#[derive(Drop)]
pub enum Term {
    Variable(Name),
    Integer(i64),
}

/// What joins a term to the sum before it.
#[derive(Clone, Copy, Debug, Drop, PartialEq, Eq)]
pub enum Sign {
    Plus,
    Minus,
}

/// A term behind a `+` or a `-`.
#[derive(Drop)]
pub struct Addend {
    pub sign: Sign,
    pub term: Term,
}

/// What PRINT prints: a value, or the bytes of a literal with each doubled apostrophe as one.
#[derive(Drop)]
pub enum Item {
    Value(Term),
    Text(List<u8>),
}

/// A statement.
#[derive(Drop)]
pub enum Statement {
    /// The target, the first term of the sum, and the terms behind it.
    Assign(Name, Term, List<Addend>),
    Print(List<Item>),
    End,
}

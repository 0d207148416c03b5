//! Heads of units.
use super::print::{put, put_names};
use f77_tree::{List, Name, TypeWord, UnitKind};
use std::alloc::AllocError;

/// The word of a type, with a blank before it.
pub fn word_of(word: TypeWord) -> &'static str {
    match word {
        TypeWord::Integer => " INTEGER",
        TypeWord::Logical => " LOGICAL",
        TypeWord::Real => " REAL",
        TypeWord::DoublePrecision => " DOUBLEPRECISION",
        TypeWord::Complex => " COMPLEX",
    }
}

fn kind_of(kind: UnitKind) -> &'static str {
    match kind {
        UnitKind::Main => "main",
        UnitKind::Subroutine => "subroutine",
        UnitKind::Function => "function",
        UnitKind::BlockData => "block data",
    }
}

/// The kind of a unit, the type of a function where it is told, the name and the dummies.
pub fn put_head(
    out: &mut Vec<u8>,
    kind: UnitKind,
    ty: Option<TypeWord>,
    name: &Name,
    dummies: &List<Name>,
) -> Result<(), AllocError> {
    put(out, kind_of(kind))?;
    if let Some(word) = ty {
        put(out, word_of(word))?;
    }
    put(out, " ")?;
    out.extend_from_slice(name.as_bytes())?;
    put_names(out, dummies)
}

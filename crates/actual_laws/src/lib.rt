//! In an accepted program the actual arguments of a call fit the dummy arguments of the unit that is called.
//!
//! Nothing here is code. `actuals_law` speaks of the routine that a run looks at (`routine` of `f77_semantics`): at each
//! reference and each CALL in a statement of it,
//!
//! - the callee of the site is the name of a unit of the program;
//! - as many actuals are passed as that unit has dummies;
//! - an actual for an array is an array or an element of one, and an actual for a scalar is no array;
//! - an actual has the type of the dummy: a variable and an element the type that their cells are read with, a
//!   reference that of its site. The array of a name has no type in a routine, so nothing is said of it.
//!
//! So faults 30, 31 and 32 can't be dropped from the checks without this law failing. It speaks of statements: that the
//! bounds of dummy arrays call nothing, and that a main program has no dummies, isn't said here.
//!
//! The site's expressions are those that the unit tells the program (`prog_texts`), and the checks of the program find
//! no fault at it (`proofs/Sites`). What a name stands for tells an array from a scalar (`proofs/Shapes`), and an
//! expression resolves to a term of its type (`proofs/Types`).
#![tactic(auto)]

ghost use Rattle.actual_laws.specs.Laws.{ActualsFitDummies};

/// At each call in an accepted program there are as many actuals as the callee has dummies, of their types, arrays or elements for arrays,
/// and no arrays for scalars.
pub fn actuals_law()
    ensures fit { ActualsFitDummies }
{}

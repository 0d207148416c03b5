//! Programs that passed their checks are never stuck.
//!
//! The conditions of the checks against what `Effects` of `f77_semantics` asks of routines. The laws stand on each
//! other:
//!
//! - `functions_law`: the names with the role of a function are those that are applied as functions, so that sites
//!   and callees keep step; what stands behind CALL is a subroutine. From: no fault 12, END.
//! - `names_law`: each name stands for what its role says, and has a list or stands behind CALL only where the role
//!   allows it (`NamesFit`). From: no faults 12, 13, 19, 21, 22, 26 and 37 on an array, `PassesNoProcedure` (35),
//!   `IsTextOf`.
//! - `terms_law`: an expression that passed at its place resolves to a term with the type that is wanted there, or
//!   to an actual. From those, and no faults 19, 21, 26 there.
//! - `units_law`: a unit is as its effects say: targets, items, actuals, ways and DOs too. From: no faults 12 to
//!   26, `PassesNoProcedure` (35), `IsTextOf`.
//! - `programs_law`: an accepted program of such units has no run that is `Wrong`; a callee leads to fewer units
//!   than its caller, and gives what its sites take. From: faults 27, 30, 33, 34 and 35, names of units that
//!   differ.
//!
//! A unit without faults 12 to 26 alone isn't as its effects say: `I = F(1)` with a dummy F that is no array has no
//! term, and the program's check of procedures (35) refuses it.
//!
//! `IsTextOf` is what the grammar and the limits ask of every text: END is the last statement, a unit has at most
//! 63 dummy arguments, literals are items of PRINT, RETURN stands in subprograms, and a logical IF has an action.
//! `sound_texts` shows it.
//!
//! `NamesFit` has what names stand for, and where each part comes from:
//!
//! - Any name that programs compute with has a type: fault 13 shows where such a name first stands
//!   (`proofs/Typing`).
//! - A variable or an array stands for its slot, the first one with its name (`Slots`): it occurs, so it is one of
//!   the unit's names.
//! - A dummy stands for its position in the head, where the routine has a dummy array exactly if the role is that
//!   of an array (`Heads`): a dummy is given once (12), and 63 of them have positions below any limit.
//! - An array that is no dummy stands for bounds with a number of elements that its slot holds (`Shaping`): its
//!   bounds are constant where they stand (22) and integers (19), with sound exponents (26), and no more than
//!   16,777,216 elements (37).
//! - A named constant stands for a value of its type (`Valuing`, `Parameters`): its definition is constant (22), of
//!   its type (19), with sound exponents (26). At any statement it has the value of the whole unit (`Defining`),
//!   since a value is given once (12).
//! - A function's own name stands for a variable: what it is excludes every other role (12).
//! - A name with a list stands for an array, an intrinsic or a function: any other has a role that excludes it
//!   (12), or is a dummy procedure (35, `Listing`).
//! - A dummy array at the entry stands for bounds that are terms with numbers (`Entering`): they are made of
//!   constants and of integers of COMMON and the head (22).
//!
//! What a unit reads and stores is taken as everything of its own (`Units.effects`), so that only sites and types
//! are left. What each site passes is a list in the order of the sites (`Sites.calls`, `Units.passed`), and a part
//! of an expression or a statement has its own piece of it (`Part`), as of the list of callees.
#![tactic(auto)]

ghost use Rattle.sound_units.specs.Laws.{CalledAreSubroutines, FunctionsAreApplied, NamesStand, ProgramsAreNeverStuck, TermsHaveTypes, UnitsAreSound};

/// In a unit that passed its checks the names with the role of a function are those that are applied as
/// functions, and what stands behind CALL is a subroutine.
pub fn functions_law()
    ensures agree { FunctionsAreApplied }
    ensures called { CalledAreSubroutines }
{}

/// In a unit that passed its checks and passes no procedures, each name stands for what its role says: a variable or an array has its
/// place in storage, a constant a value of its type that it keeps, and what has a list or stands behind CALL can be referenced so.
pub fn names_law()
    ensures fit { NamesStand }
{}

/// In such a unit an expression that passed the checks at its place resolves to a term of the type that is wanted there, or to an actual
/// argument.
pub fn terms_law()
    ensures typed { TermsHaveTypes }
{}

/// Such a unit is as its effects say.
pub fn units_law()
    ensures sound { UnitsAreSound }
{}

/// An accepted program of units that passed their checks, whose names differ, has no run that is wrong: on no input does it stand before
/// what has no meaning.
pub fn programs_law()
    ensures never_wrong { ProgramsAreNeverStuck }
{}

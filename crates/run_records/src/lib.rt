//! Records of a unit's calls and entries, and what it is to serve a unit.
//!
//! Definitions and laws alone, over `Behaviour`s of `run_calls`: what is lowered, what passes make of it, code and
//! linked objects all cite these. `docs/SERVES.md` tells them to a newcomer, with an example worked out.
//!
//! - `Records`: where own items stand, what a record tells, which worlds stand in for a call's, what an entry is.
//! - `Rows`: what a call answers, as a row, and that a handler keeps to a record at a call.
//! - `Serving`: `Serves`, between two behaviours of one unit: a unit and a body, or a body before and after a pass.
//! - `Oracles`: the same by finite lists of rows, of which the first that fits answers.
//! - `Widest`: when a record is as wide as another, and the widest of all.
//! - `Laws`: what the functions below say.
#![tactic(auto)]

ghost use Rattle.run_records.specs.Laws.{CalleesMayChange, Composes, GivesRows, Narrows, ServesItself, WidestAllowsAll, WidestIsKept, WidestServesAll};

/// What serves what serves a behaviour serves it, and each serves itself. So passes compose.
pub fn composes_law()
    ensures composes { Composes }
    ensures itself { ServesItself }
{}

/// What serves under handlers that keep to the record serves under call oracles: finite lists of rows, the first that fits.
pub fn rows_law()
    ensures { GivesRows }
{}

/// What serves under a record serves under each that tells more.
pub fn narrows_law()
    ensures { Narrows }
{}

/// What serves a behaviour runs as it does also with other callees, where these do what its own do from all that stands in
/// at its calls: a step of the induction up the calls of a program.
pub fn callees_law()
    ensures { CalleesMayChange }
{}

/// Under the widest record only a world with the same storage stands in, each call that answers a row keeps to it, and what
/// serves under it serves under every record.
pub fn widest_law()
    ensures allows { WidestAllowsAll }
    ensures kept { WidestIsKept }
    ensures serves { WidestServesAll }
{}

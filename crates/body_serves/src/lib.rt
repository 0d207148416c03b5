//! What it is that a body serves a unit, that a pass keeps what a body does, and that a body is spent.
//!
//! Definitions and laws alone: `unit_serves` at the bodies of `ir_core`. What lowers a unit shows `Follows` and promises
//! `BodyServes`, a pass `BodyKeeps`, and all passes together `Spent`.
//!
//! - `Bodies`: a body as a behaviour, when it is of a unit (`IsOf`), `BodyServes`, `BodyKeeps`, `Follows`.
//! - `Spent`: a body has nothing left that the passes could take: the greatest constants, the greatest copies and the
//!   least live items along its walks, and what they must not show.
//! - `Example`: the example of `docs/SERVES.md`.
//! - `Laws`: what the functions below say.
#![tactic(auto)]

ghost use Rattle.body_serves.specs.Example.{ExampleNeedsItsRecord, ExampleServes};
ghost use Rattle.body_serves.specs.Laws.{BodiesDependOnTheirCalls, BodiesServeFurther, BodiesServeTogether, FollowingServes, PassesCompose, RunIsBehaviour, SolutionsAreOne};

/// A body's run is its behaviour, and it depends on its handler at its calls alone.
pub fn body_law()
    ensures behaves { RunIsBehaviour }
    ensures depends { BodiesDependOnTheirCalls }
{}

/// A body that follows its unit act by act serves it under every record.
pub fn lowering_law()
    ensures { FollowingServes }
{}

/// Passes that keep what a body does keep that it serves, one after the other. A body that serves under a record serves under
/// each that tells more, and by rows.
pub fn passes_law()
    ensures compose { PassesCompose }
    ensures further { BodiesServeFurther }
{}

/// Bodies that each serve their unit under a record do together what the program does, along each run along which these
/// records hold.
pub fn objects_law()
    ensures { BodiesServeTogether }
{}

/// Of the greatest constants, the greatest copies and the least live items there is one each, at the points that a walk reaches.
pub fn spent_law()
    ensures { SolutionsAreOne }
{}

/// The body of the example in `docs/SERVES.md` serves its unit under the record that stands there, and not where the call may
/// read every item.
pub fn example_law()
    ensures serves { ExampleServes }
    ensures needs { ExampleNeedsItsRecord }
{}

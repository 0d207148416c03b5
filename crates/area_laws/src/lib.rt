//! An accepted program stays in its areas: what a run reads, stores to and passes lies before the ends of them.
//!
//! Nothing here is code. The areas of a program are the local area of each unit, each COMMON block at the largest size
//! that a unit gives it, and a storage unit for each actual that a site passes (`Areas.area_size`). What a run touches
//! is defined beside what it does (`Touches`), act by act, turn by turn and call by call: a location that is read or
//! stored to, an interval that is passed.
//!
//! - `stays` of `areas_law`: on every input, for every number of steps, the run that `Source` tells of touches no
//!   location at or past the end of its area, and each interval that it passes ends by the end of its area and has a
//!   location.
//! - `defined`: each location that has a value after a run, of whatever length, lies before the end of its area; what
//!   DATA gives does too.
//! - `finite`: these are among finitely many (`Areas.locations`), for every list of units.
//!
//! How it goes. A tree of acts stays (`proofs/Stays`) whatever it reads and is answered, so what is shown of a turn
//! holds in every run. The terms of a unit stand for slots, which lie within their areas (`proofs/Texts`, by
//! `store_laws`), since a program within its limits has no area that is too large to count (`proofs/Limits`). A
//! subscript in its bounds names an element; a dummy has the interval that its call passes, cut to one location where
//! it is no array; and the entry leaves a dummy array's bounds no larger than its actual (`proofs/Turns`).
#![tactic(auto)]

ghost use Rattle.area_laws.specs.Laws.{AreasAreFinite, RunsStayInAreas, ValuesLieInAreas};

/// The run of an accepted program touches no location at or past the end of its area, and passes no interval that ends past it. So the
/// locations that ever have a value are among finitely many.
pub fn areas_law()
    ensures stays { RunsStayInAreas }
    ensures defined { ValuesLieInAreas }
    ensures finite { AreasAreFinite }
{}

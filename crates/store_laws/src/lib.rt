//! Laws of the storage of a unit, which hold of every unit, with faults or without.
//!
//! Nothing here is code. What is shown of runs and of compiled code rests on `areas_law`:
//!
//! - `within`: the storage units of a slot lie within its area, the local one or a COMMON block of the unit.
//! - `apart`: two slots of an area share no storage unit. EQUIVALENCE is no statement of the language.
//! - `scalars`: what is no array has one storage unit.
//!
//! The first two ask that the area has fewer than 4,294,967,295 units (`IsCounted`): places and sizes are told as that
//! number where they are greater, and then say nothing. A program within its limits has no such area (fault 37). No
//! other fault matters: where a name stands in COMMON twice its slot is the last place, which lies behind all others.
#![tactic(auto)]

ghost use Rattle.store_laws.specs.Laws.{ScalarsAreSingle, SlotsLieWithin, SlotsStandApart};

/// Slots lie within their areas and share no storage unit, and what is no array has one.
pub fn areas_law()
    ensures within { SlotsLieWithin }
    ensures apart { SlotsStandApart }
    ensures scalars { ScalarsAreSingle }
{}

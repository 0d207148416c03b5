//! What it is to serve a unit of a program, and that behaviours which serve their units do together what it does.
//!
//! Definitions and laws alone: `run_records` at the units of `f77_semantics`.
//!
//! - `Units`: a unit as a behaviour, behind the clearing of its cells; where its own items stand; `ServesUnit`.
//! - `Programs`: behaviours in the units' places, and that records hold along a run (`HoldAlong`).
//! - `Laws`: what the functions below say.
#![tactic(auto)]

ghost use Rattle.unit_serves.specs.Laws.{PassesCompose, RunIsBehaviour, ServePrograms, ServeTogether, UnitsByRows, UnitsDependOnTheirCalls, WidestServesUnits};

/// A unit's run is its behaviour from where its cells were cleared, and it depends on its handler at its calls alone.
pub fn unit_law()
    ensures behaves { RunIsBehaviour }
    ensures depends { UnitsDependOnTheirCalls }
{}

/// What serves what serves a unit serves it, also by rows, and from the widest record under every record.
pub fn serves_law()
    ensures composes { PassesCompose }
    ensures rows { UnitsByRows }
    ensures widest { WidestServesUnits }
{}

/// Behaviours that each serve their unit under a record do together what the program does, along each run along which these
/// records hold, whatever the age of each.
pub fn callees_law()
    ensures together { ServeTogether }
    ensures programs { ServePrograms }
{}

//! The meaning of programs: what a run of a program does, step by step.
//!
//! For the interpreter, the code and the analyses. A reader goes through `specs/` in this order, beside sections 6,
//! 10 to 12 and 15 of the standard:
//!
//! - `Values`: values of operators, and of intrinsic functions.
//! - `Program`: `Routine`, a unit whose names, labels and sites are looked up: terms and statements.
//! - `Expressions`: association, elements, values, actual arguments.
//! - `Statements`: what one turn does, a clause for each statement.
//! - `Units`: entries, a unit's run against what its calls do (`run_unit`), and a program's (`running`).
//! - `Terms`, `Resolve`, `Data`, `Source`: the routine of a `Unit`: names by their roles and slots, sites in the
//!   order of the callees' names, labels and ways by `f77_flow`, what SAVE and DATA keep and give; and `Source`.
//!
//! What a turn does is a tree of acts (`run_model`), written in `do` notation: a `Get` is a read, a `Put` a store,
//! a `Say` a print, a `Take` an integer of the input, an `Ask` a call, and `Fail` ends the run. `Fail Stuck` is no
//! end of any accepted program. A layer above may rely on these laws:
//!
//! - `joining_law`: a unit's run is its own with the callees' runs in the place of its calls. So what is shown of a
//!   unit against every handler holds in every program.
//! - `longer_runs_law`: Ended and Undefined stay with more steps, with status, step and cause, and the output only
//!   grows.
//! - `sane_law`: where each unit reads, writes and calls what its `Effects` say, with terms of their types
//!   (`ProgramOk`), and each callee has a lower rank, no run is `Wrong`. That an accepted program is such is what
//!   `sound_units` and `sound_texts` show.
//! - `flow_law`: a turn of a unit's routine that goes on goes to a point of `follow`, where a DO that is tested has
//!   a range. So what an analysis finds along the statement graph holds along runs.
//! - `places_law`: in a unit that passed the checks of its labels, jumps and nesting (`f77_flow`'s `PassedChecks`)
//!   a run begins at a place, and each turn goes from a place to a place: a statement with which a step may begin,
//!   a logical IF, a DO with a range. `points_law`: at each place the routine has a turn, where each DO's variable
//!   is a variable, and so it has one at its beginning and wherever the flow leads. That is what `ProgramOk` asks
//!   of control.
//! - `sites_law`: an expression has as many sites as callees stand in it, so that numbers of sites and the list of
//!   callees keep step, where the names with the role of a function are those that are applied (`FunctionsAgree`).
//!
//! `proofs/Examples` and `Calls` have some fifty programs whose runs the checker computes at exact numbers of
//! steps, and `Trees` what trees are looked up to.
#![tactic(auto)]

mod storage;

ghost use Rattle.std.specs.Prelude.{◌≡◌, ℕ, suc, ◌+◌, ◌<◌, List, ℤ, false, length, map, Some};
ghost use Rattle.run_model.specs.Storage.{Interval};
ghost use Rattle.run_model.specs.Acts.{World};
ghost use Rattle.run_model.specs.Runs.{RunExtends, Wrong};
ghost use Rattle.f77_tree.specs.declared.unit.Unit.{Unit};
ghost use Rattle.f77_values.specs.Tables.{Name};
ghost use Rattle.f77_semantics.specs.Units.{Program, run_unit, at_sites, meaning, named, running};
ghost use Rattle.f77_semantics.specs.Program.{Routine};
ghost use Rattle.f77_semantics.specs.Effects.{Effects, ProgramOk};
ghost use Rattle.f77_semantics.specs.Goes.{GoesByTheFlow, PlacesArePoints, StaysOnPlaces, TurnsEverywhere};
ghost use Rattle.f77_semantics.specs.Sites.{SitesAreCallees};
ghost use Rattle.f77_semantics.specs.Source.{Source, main_of, routine};

pub use storage::{Array, Base, Bounds, Extent, Kept};

/// A unit's run is its own statements' with the callees' runs in the place of its calls.
pub fn joining_law()
    ensures joins { (units : Program) → (depth : ℕ) → (q : Name) → (actuals : List Interval) → (w : World) → meaning units (suc depth) q actuals w ≡ run_unit (at_sites (units q) (meaning units depth)) (units q) actuals w }
{}

/// A run with more steps goes on where one with fewer stopped.
pub fn longer_runs_law()
    ensures extends { (units : List Unit) → (input : List ℤ) → (n k : ℕ) → RunExtends (Source units input n) (Source units input (n + k)) }
{}

/// A program whose units are as their effects say has no run that is wrong: it never stands before what has no meaning, and its main
/// program never returns. A callee has a lower rank than its caller.
pub fn sane_law()
    ensures never_wrong { (units : List Routine) → (main : Routine) → (effects : Name → Effects) → (rank : Name → ℕ) → ProgramOk (named units main) effects rank
        → rank main.name < length units → (effects main.name).returns ≡ false → (input : List ℤ) → (n : ℕ) → running units main input n ≡ Wrong → ⊥ }
    ensures source { (units : List Unit) → (main : Unit) → main_of units ≡ Some main → (effects : Name → Effects) → (rank : Name → ℕ) → ProgramOk (named (map routine units) (routine main)) effects rank
        → rank main.name < length (map routine units) → (effects main.name).returns ≡ false → (input : List ℤ) → (n : ℕ) → Source units input n ≡ Wrong → ⊥ }
{}

/// A turn of a unit that goes on goes to a place that may follow by the unit's flow. What is tested is a DO with a range.
pub fn flow_law()
    ensures follows { GoesByTheFlow }
{}

/// In a unit that passed the checks of its labels, jumps and nesting a run begins at a place where a step may begin, and each turn goes
/// from such a place to such a place.
pub fn places_law()
    ensures stays { StaysOnPlaces }
{}

/// An expression has as many sites as callees stand in it, where the names with the role of a function are those that are applied as
/// functions.
pub fn sites_law()
    ensures counted { SitesAreCallees }
{}

/// At each place of a unit there is a turn that its routine can begin, where the variable of each DO is a variable; so in a unit that
/// passed the checks of its labels, jumps and nesting there is one at the beginning and wherever the flow leads.
pub fn points_law()
    ensures places { PlacesArePoints }
    ensures turns { TurnsEverywhere }
{}

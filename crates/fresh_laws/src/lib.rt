//! Fresh cells are fresh: no run depends on what a site's fresh cell held before.
//!
//! An actual argument without a location, as a sum, is evaluated into a cell that its site has for that position. Such
//! a cell matters only from there to the end of the call: to the callee that it is passed to, and to those to which
//! that one passes it on. So storage that other things use in between serves as well, and nothing need clear it.
//!
//! - `fresh_law` activation: a run of a unit with all that it calls is alike from two worlds that agree at every cell
//!   but the fresh ones that weren't passed to it (`matters`): it answers or stops the same, has printed, read and
//!   counted the same, and leaves worlds that agree there again, and wherever else the two agreed before.
//! - `fresh_law` within: so is what is left of an activation at any of its turns.
//!
//! Nothing is asked of the units: the law holds of every program whose names and sites are looked up. The proof goes by
//! acts that read and pass on only what agrees (`proofs/Sees`), where a store adds its cell to what agrees.
#![tactic(auto)]

ghost use Rattle.fresh_laws.specs.Fresh.{FreshCellsAreFresh, FreshWithin};

/// A run doesn't depend on what a site's fresh cell held before, and neither does what is left of a run at any turn.
pub fn fresh_law()
    ensures activation { FreshCellsAreFresh }
    ensures within { FreshWithin }
{}

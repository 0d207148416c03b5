//! What a run is: storage, acts, worlds, turns, and the answer of a run that may begin so many steps.
//!
//! Definitions and laws alone. The meaning of programs is stated over them, and that of compiled code will be too.
#![tactic(auto)]

ghost use Rattle.run_model.specs.Laws.{GoesOnWithMoreSteps, PlaysInOrder};

/// A run that may begin more steps goes on where the shorter one stopped.
pub fn longer_runs_law()
    ensures { GoesOnWithMoreSteps }
{}

/// Acts are played in their order.
pub fn order_law()
    ensures { PlaysInOrder }
{}

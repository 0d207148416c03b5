//! The calls of a run: which sites it calls, with which actual arguments and from which worlds, in order.
//!
//! Definitions and laws alone, over acts and turns of any kind. What is shown of a unit against its handler, of a body
//! against its unit, or of objects against the source's callees, speaks of these calls:
//!
//! - `Calls`: the list of a run's calls, a function beside the run, by the same recursions. No world holds a log.
//! - `Same`: when a run ends as another does as far as that one is defined.
//! - `Behaviours`: what an activation does under a handler, its run and its calls, and that it depends on its handler
//!   at these calls alone.
//!
//! The laws say it of acts and turns that end in numbers, whose states are numbers; `proofs/Depends` has it of all.
#![tactic(auto)]

ghost use Rattle.run_calls.specs.Laws.{ActsDependOnTheirCalls, TurnsDependOnTheirCalls, ActivationsDependOnTheirCalls, CallsInOrder};

/// A run and its calls depend on the handler at these calls alone: a handler that answers the same there makes the same
/// run with the same calls, and one that answers alike there a run that ends alike.
pub fn calls_law()
    ensures acts { ActsDependOnTheirCalls }
    ensures turns { TurnsDependOnTheirCalls }
    ensures activations { ActivationsDependOnTheirCalls }
{}

/// The calls of one act after another are those of the first and then those of the next.
pub fn order_law()
    ensures { CallsInOrder }
{}

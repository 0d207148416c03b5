//! When a run does what another does, whatever its handler is: what lowering shows.
//!
//! Definitions and laws alone, over the acts of `run_model`, with no handler, no world and no number of steps in them:
//!
//! - `Like`: when one act does what another does. Where the first is undefined the second is free.
//! - `Alike`: when one machine of turns does what another does, also where the first does at an entry, before its first
//!   step, what the second does in it.
//!
//! The laws say it of acts that end in numbers and of states that are numbers; `proofs/Runs` has it of all.
#![tactic(auto)]

ghost use Rattle.run_alike.specs.Laws.{ActsRunAlike, EntriesRunAlike, TurnsRunAlike};

/// What is alike runs alike under every handler and from every world: it ends so as far as the first is defined, and makes
/// the same calls from the same worlds.
pub fn alike_law()
    ensures acts { ActsRunAlike }
    ensures turns { TurnsRunAlike }
    ensures entries { EntriesRunAlike }
{}

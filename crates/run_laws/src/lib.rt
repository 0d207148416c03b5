//! Why the meaning of programs is the right one: a step counts once, and a program without READ doesn't see its input.
//!
//! Nothing stands on these laws yet. They hold of every list of units, but for what a law itself asks:
//!
//! - `steps_law`: a step counts once. A run that doesn't go on came to be so at one of the steps that it could
//!   begin: with each fewer number it goes on, and with that number and each greater one it is the same (`IsFrom`).
//!   An undefined run tells that very step. So one step more begins at most one. Before its first step a program
//!   has done nothing, so it stops in a step, where no unit of the main program's name has dummy arguments: their
//!   bounds are evaluated at the entry, which is no step, and could be undefined there.
//! - `input_law`: where no statement is READ, nor the statement of a logical IF, a program runs alike on every
//!   input, for every number of steps.
//! - `ends_law`: a run ends with status 0 or 3, and an undefined one has a cause from 1 to 6.
//! - `graph_law`: a unit's run goes along the graph of its statements, whatever it calls. The points at which its turns
//!   begin (`way_of`) start with the first statement, and each may follow the one before; so a statement that begins
//!   is one of the followers, as `flow_of` lists them, of the statement that began before it. What an analysis finds
//!   along that list holds along runs.
//!
//! The first goes by what is left of the steps (`proofs/Left`): a run that stopped for another reason than its
//! steps is the same with k more of them, and has k more left; one that used them up has with k more either used
//! these up too, or stopped with fewer than k left. The second goes by acts that take nothing (`proofs/Blind`), in
//! worlds that differ in their input. The third is a predicate on acts that ignores what is read and answered
//! (`proofs/Endings`), and the fourth joins what `f77_semantics` says of a turn along the turns of an activation.
#![tactic(auto)]

ghost use Rattle.run_laws.specs.Laws.{BeginsBeforeItsFirstStep, EndsAtAStep, InputIsWhatIsRead, StopsAtAStep, StopsInAStep, UndefinedAtItsStep};
ghost use Rattle.run_laws.specs.Endings.{EndsWithStatus, HasACause};
ghost use Rattle.run_laws.specs.Walks.{RunsFollowTheGraph};

/// A run that no longer goes on came to be so at one step: with fewer it goes on, and with so many or more it is the same. That is the
/// step that an undefined run tells. Before its first step a program has done nothing, so it stops in a step.
pub fn steps_law()
    ensures stops { StopsAtAStep }
    ensures ended { EndsAtAStep }
    ensures undefined { UndefinedAtItsStep }
    ensures begins { BeginsBeforeItsFirstStep }
    ensures in_a_step { StopsInAStep }
{}

/// A program none of whose statements is READ, also not in a logical IF, runs alike on every input.
pub fn input_law()
    ensures alike { InputIsWhatIsRead }
{}

/// A program that ends has status 0 or 3, and the cause of an undefined run is one of 1 to 6.
pub fn ends_law()
    ensures statuses { EndsWithStatus }
    ensures causes { HasACause }
{}

/// The turns of a unit that passed the checks of its labels, jumps and nesting follow one another by the graph of its statements,
/// whatever its calls do.
pub fn graph_law()
    ensures follows { RunsFollowTheGraph }
{}

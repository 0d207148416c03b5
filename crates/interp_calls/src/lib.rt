//! The units of a program that runs, and their calls.
//!
//! The cycle of the interpreter: a call looks a procedure up by its place, the run of a unit makes its cells
//! undefined, evaluates the bounds of its dummy arrays and takes turns, a turn runs the code of a statement and
//! then its ending, and a step may call.
//!
//! - Each part says that it does what playing its acts says where calls are answered by `meaning` at the depth that
//!   is left, so one part's contract is put into the next by the lemmas of `interp_steps`; a callee's own contract
//!   is the handler's answer. The depth is the measure: it is less in each callee, and where it is spent the run is
//!   stuck, as the definition says.
//! - Turns have a count of their own, as in `run_from`, so that nothing has to be known of how many steps a callee
//!   took.
//! - Extents of dummy arrays are whole numbers of any size in the definition: an extent is counted in 128 bits, and
//!   a product only as far as the length of the actual argument, since one that is greater has no room in it, and
//!   leaves nothing for `*`.
//! - A `Procedure` has all that is looked up while a unit runs: where control goes, its statements, marks of the
//!   cells that it keeps and of the dummies that are arrays, and the places of its callees, found by their names
//!   once.
//! - What a turn printed goes to the sink when the turn is over. Each function of the cycle begins with nothing
//!   unsent, and where nothing broke the run off none ends otherwise but those that take the turn itself (`sent`),
//!   so no more than the record of one PRINT statement is ever kept. So `call` asks for nothing unsent, as a
//!   program's start makes it. A part's contract then speaks of worlds behind what was sent: `Sends` says, for
//!   whatever the sink had got since some start, that it has got more, and that behind it the run goes on or
//!   stopped as the definition says; a run that was broken off, by a sink that failed or for want of memory, has
//!   sent a front of what it would have said. Runs say their own behind what was said before (`proofs/Appending`),
//!   so the contracts of `interp_steps` and `interp_turns`, which know of no sink, are put in by one lemma.
//! - Each call takes ten calls of the interpreter itself, so the stack must have room for ten frames for each unit
//!   of the longest chain: the longest that a program may have, 2,000 units, fitted 8 MB in an optimized build
//!   where it was tried, and not in an unoptimized one.
#![tactic(auto)]

mod answers;
mod bounds;
mod caller;
mod calls;
mod entries;
mod halt;
mod lines;
mod procedure;
mod sending;
mod shapes;

pub use calls::call;
pub use halt::Halt;
pub use procedure::Procedure;

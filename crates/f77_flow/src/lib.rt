//! Where control goes in a unit: which statements may follow which, and the loops.
//!
//! The flow is defined for every list of statements: nothing is asked but that their numbers fit 32 bits. Where a
//! label stands nowhere, or a block IF has no END IF, the number of statements stands for none. The definitions are
//! by concern:
//!
//! - `Kinds`: what a statement is to those around it.
//! - `Labels`: where a jump goes, and the last statement of a DO.
//! - `Blocks`: END IFs, arms, where a false condition goes, and what begins below a statement.
//! - `Graph`: the points at which steps begin, and which may follow which, by the form of each.
//! - `Next`: the statements that may follow a statement, as a relation (`MayFollow`) and as its list in order
//!   (`IsNext`), and the loops.
//! - `Spans`, `Checks`: ranges and arms, and the faults 14 to 18 as conditions on labels, jumps and nesting;
//!   `PassedChecks` is what of them a unit must not have so that control goes to statements alone (`IsNode`).
//! - `Tables`, `Progress`, `Adding`: what the passes know on the way; a reader of the meaning needs none of them.
//!
//! An interpreter and the lowering stand on the points: `below`, `otherwise`, `target` and `first` of these
//! definitions are clauses of methods of `Control`. Analyses stand on the flattened list.
//!
//! Each table is one pass. Labels go from the last statement to the first, so that the statement that a label means
//! is the last one put into an ordered map, and the last statement of a DO is looked up before anything above it is
//! put. Block IFs go the same way with a stack of those whose END IF was seen, and for each its END IF, its next
//! part and where a false condition goes. The DOs that end at a statement are a chain from the innermost outwards,
//! made from the first statement to the last. The lists are then put together from these; a mark for each statement
//! tells what a list has.
#![tactic(auto)]

mod blocks;
mod control;
mod ended;
mod flow;
mod kinds;
mod labels;
mod loops;
mod next;
mod once;
mod simple;
mod table;

pub use control::Control;
pub use flow::{Flow, flow_of};
pub use kinds::{Kind, kind_of};
pub use loops::Loop;

//! What a turn of a unit does after the steps of its expressions.
#![tactic(auto)]

mod endings;
mod flow;
mod here;
mod loops;
mod operands;
mod record;
mod returns;
mod turn;

pub use endings::finish;
pub use here::{Here, Loop, Point};
pub use loops::{advance, tested};
pub use turn::Turn;

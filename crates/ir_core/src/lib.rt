//! Bodies: what a unit is compiled from, and what running one does.
//!
//! A body is a list of blocks, and a block is a list of instructions with an end. Instructions compute words of 64
//! bits in numbered temporaries, and reach storage by spots. What a body does is a tree of `run_model`'s acts, one
//! visit of a block a turn, so that a body and the unit that it was made from run on the same machine, under the same
//! handlers of calls. A reader goes through `specs/` in this order:
//!
//! - `Words`: words of values, values of words, and what is calculated with words.
//! - `Uses`: the temporaries that an instruction reads and writes, its spot, and where an end goes.
//! - `Listings`: what a body is (`Listing`), and what every body keeps to (`is_body`).
//! - `Runs`: what an instruction, an end and a block do (`body_turn`), and a body's run (`run_body`).
//! - `Parts`: when a body is of a unit (`is_of`).
//! - `Lives`: where a temporary is live, and which places of temporaries are apart.
#![tactic(auto)]

mod block;
mod body;
mod builder;
mod checks;
mod instruction;
mod places;

pub use block::{Block, End};
pub use body::Body;
pub use builder::Builder;
pub use instruction::{Base, Calc, Instr, Seat, Spot};
pub use places::Places;

//! What a program that runs does, step by step of its expressions.
#![tactic(auto)]

mod elements;
mod frame;
mod intrinsics;
mod operand;
mod operations;
mod pushes;
mod reads;
mod results;
mod state;
mod steps;
mod stop;
mod stores;
mod value;

pub use elements::element;
pub use frame::{Frame, Interval, scalar};
pub use operand::{Operand, pop_item, pop_passed, pop_place, push};
pub use results::push_answer;
pub use state::State;
pub use steps::step;
pub use stop::Stop;
pub use value::{as_number, as_truth};

//! Values of constants: operators that wrap, constant expressions, bounds and sizes, and tables of what is told of names.
#![tactic(auto)]

mod arithmetic;
mod constants;
mod sizes;
mod tables;

pub use arithmetic::{deny, keep, negate, operate};
pub use constants::{constants_of, define_in, denied, evaluate, kept, negated, operated};
pub use sizes::{Bounds, elements, lower, upper, whole};
pub use tables::{Names, Table};

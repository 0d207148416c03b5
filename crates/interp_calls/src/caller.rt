//! A unit that runs, among the procedures that it may call.

use super::procedure::Procedure;
use std::alloc::Global;

/// What all parts of a unit's run share: where memory comes from, the procedures of the program, the unit's own, and how deep calls may go.
#[derive(Clone, Copy)]
pub struct Caller<'p, 'u> {
    pub alloc: Global,
    pub procedures: &'p [Procedure<'u>],
    pub procedure: &'p Procedure<'u>,
    pub depth: usize,
}

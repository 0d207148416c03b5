//! The ends of statements.

use f77_semantics::Base;
use f77_tree::List;

/// What a statement makes of the operands that its steps leave. Targets are numbers of statements.
#[derive(Drop)]
pub enum Ending {
    Store,
    Branch(u32),
    Guard,
    Sign(u32, u32, u32),
    Jump(u32),
    Choose(List<u32>),
    Count(Base),
    Next,
    Leave,
    Halt,
    Write,
    Nowhere,
}

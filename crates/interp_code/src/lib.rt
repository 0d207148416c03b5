//! Expressions as steps on a stack of operands.
//!
//! A recursion over terms, each with calls inside it, would be one cycle of fourteen functions. So an expression
//! becomes a list of steps that take operands from a stack and put one there, and a statement such a list and an
//! ending. `code_law`, `statements_law` and `bounds_law` say that playing these is playing the expression, the
//! statement and the bounds of a dummy array. Then only the run of a unit, its turns, its steps and its calls call
//! each other.
#![tactic(auto)]

mod ending;
mod step;

ghost use Rattle.interp_code.specs.Laws.{CodeDoes, StatementsDo, BoundsDo};

pub use ending::Ending;
pub use step::Step;

/// The steps of an expression do what the expression does.
pub fn code_law()
    ensures { CodeDoes }
{}

/// A statement does what its steps and its ending do.
pub fn statements_law()
    ensures { StatementsDo }
{}

/// The bounds of a dummy array do what their steps and their shape do.
pub fn bounds_law()
    ensures { BoundsDo }
{}

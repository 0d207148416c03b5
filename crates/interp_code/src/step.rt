//! The steps of expressions.

use f77_names::Intrinsic;
use f77_semantics::{Array, Base};
use f77_tree::{List, Op, Ty, Value};

/// What takes operands from a stack and puts one there. A site is a reference or a CALL, by its number. `Push` puts a value there, `Show`
/// a literal, and with `Open` a list of operands begins. `Fetch` gives the value of a variable, and `Aim` its location; `Locate` gives that
/// of an element, whose subscripts end the stack, and `Load` the value at a location. `Pass`, `PassWhole`, `PassRest` and `Hold`, which has
/// a site and a position there, give actual arguments: a variable, an array, an array from an element on, and a value. `Refer` calls a
/// function and `Perform` a subroutine. What `Number` leaves is a number, and `TakeIn` reads the next integer into a location.
#[derive(Drop)]
pub enum Step {
    Push(Value),
    Show(List<u8>),
    Open,
    Fetch(Ty, Base),
    Aim(Base),
    Locate(Array),
    Load(Ty),
    Pass(Base),
    PassWhole(Array),
    PassRest(Array),
    Hold(usize, usize),
    Refer(usize),
    Perform(usize),
    Compute(Intrinsic),
    Keep,
    Negate,
    Deny,
    Operate(Op),
    Number,
    TakeIn,
    Wrong,
}

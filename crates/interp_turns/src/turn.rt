//! What a turn leads to.

use f77_tree::Value;

/// Another turn, or the answer to the caller: a function's result, or nothing.
#[derive(Clone, Copy, Debug, Drop, PartialEq, Eq)]
pub enum Turn {
    Again,
    Result(Option<Value>),
}

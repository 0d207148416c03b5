//! Values of operators, by their types.
ghost use Rattle.std.specs.Prelude.{◌≡◌, Option};
ghost use Rattle.run_model.specs.Acts as a;
ghost use Rattle.f77_semantics.specs.Values as v;
ghost use Rattle.f77_semantics.specs.Expressions as e;
ghost use Rattle.f77_semantics.specs.Statements as s;
ghost use Rattle.interp_steps.specs.Stops.{Gives, Stopped};

use super::stop::Stop;
use f77_tree::{Op, Value};
use f77_values::operate;
use std::alloc::{AllocError, Global};

fn lacking(op: Op, x: Value, y: Value) -> Stop
    ensures { Stopped result (λ reason. v.lacking op x y ≡ reason) }
{
    match (op, x, y) {
        (Op::Div, Value::Integer(_), Value::Integer(_)) => Stop::Undefined(5),
        _ => Stop::Stuck,
    }
}

/// The value of an operator.
pub fn operated(op: Op, x: Value, y: Value) -> Result<Value, Stop>
    ensures { Gives result (λ z. z) (v.operated op x y) }
{
    match operate(op, x, y) {
        Some(z) => Ok(z),
        None => Err(lacking(op, x, y)),
    }
}

/// A value that there is.
pub fn or_stuck(value: Option<Value>) -> Result<Value, Stop>
    ensures { Gives result (λ z. z) (v.or_fail a.Stuck value) }
{
    match value {
        Some(z) => Ok(z),
        None => Err(Stop::Stuck),
    }
}

/// A number.
pub fn as_number(value: Value) -> Result<i64, Stop>
    ensures { Gives result (λ n. n) (s.as_number value) }
{
    match value {
        Value::Integer(n) => Ok(n),
        Value::Logical(_) => Err(Stop::Stuck),
    }
}

/// A truth value.
pub fn as_truth(value: Value) -> Result<bool, Stop>
    ensures { Gives result (λ b. b) (s.as_truth value) }
{
    match value {
        Value::Logical(b) => Ok(b),
        Value::Integer(_) => Err(Stop::Stuck),
    }
}

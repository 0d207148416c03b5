//! Operators on values, in 64 bits that wrap.
ghost use Rattle.std.specs.Prelude.{◌≡◌, ◌≢◌, ◌≤◌, pos, ◌*ℤ◌, int_div};
ghost use Rattle.f77_values.specs.Arithmetic as m;

use f77_tree::{Op, Value};

fn product(x: i64, y: i64) -> i64
    ensures { result ≡ m.wrap (x *ℤ y) }
{
    x.wrapping_mul(y)
}

#[tactic(auto, using(crate::proofs::Powers::power_more))]
fn power(x: i64, n: u32) -> i64
    requires { n ≤ 62 }
    ensures { result ≡ m.power x n }
{
    let mut power = 1;
    for k in 0..n {
        power = product(power, x);
    }
    power
}

fn powered(x: i64, y: i64) -> Option<i64>
    ensures { result ≡ m.powered x y }
{
    if y >= 0 && y <= 62 {
        Some(power(x, y as u32))
    } else {
        None
    }
}

// The least value divided by -1 is the least value.
fn quotient(x: i64, y: i64) -> i64
    requires { y ≢ pos 0 }
    ensures { result ≡ m.wrap (int_div x y) }
{
    if y == -1 { x.wrapping_neg() } else { x / y }
}

fn divided(x: i64, y: i64) -> Option<i64>
    ensures { result ≡ m.divided x y }
{
    if y == 0 { None } else { Some(quotient(x, y)) }
}

fn integer(n: Option<i64>) -> Option<Value>
    ensures { result ≡ m.integer n }
{
    match n {
        Some(n) => Some(Value::Integer(n)),
        None => None,
    }
}

fn calculate(op: Op, x: i64, y: i64) -> Option<Value>
    ensures { result ≡ m.calculate op x y }
{
    match op {
        Op::Pow => integer(powered(x, y)),
        Op::Mul => Some(Value::Integer(x.wrapping_mul(y))),
        Op::Div => integer(divided(x, y)),
        Op::Add => Some(Value::Integer(x.wrapping_add(y))),
        Op::Sub => Some(Value::Integer(x.wrapping_sub(y))),
        Op::Eq => Some(Value::Logical(x == y)),
        Op::Ne => Some(Value::Logical(x != y)),
        Op::Lt => Some(Value::Logical(x < y)),
        Op::Le => Some(Value::Logical(x <= y)),
        Op::Gt => Some(Value::Logical(x > y)),
        Op::Ge => Some(Value::Logical(x >= y)),
        Op::And | Op::Or | Op::Eqv | Op::Neqv => None,
    }
}

fn decide(op: Op, a: bool, b: bool) -> Option<Value>
    ensures { result ≡ m.decide op a b }
{
    match op {
        Op::And => Some(Value::Logical(a && b)),
        Op::Or => Some(Value::Logical(a || b)),
        Op::Eqv => Some(Value::Logical(a == b)),
        Op::Neqv => Some(Value::Logical(a != b)),
        _ => None,
    }
}

/// The value of an operator between two values. None stands for an operand of the wrong type, a zero divisor, and an exponent that
/// isn't from 0 to 62.
pub fn operate(op: Op, left: Value, right: Value) -> Option<Value>
    ensures { result ≡ m.operate op left right }
{
    match (left, right) {
        (Value::Integer(x), Value::Integer(y)) => calculate(op, x, y),
        (Value::Logical(x), Value::Logical(y)) => decide(op, x, y),
        _ => None,
    }
}

/// The value with its sign changed, where it is an integer.
pub fn negate(value: Value) -> Option<Value>
    ensures { result ≡ m.negated value }
{
    match value {
        Value::Integer(x) => Some(Value::Integer(x.wrapping_neg())),
        Value::Logical(_) => None,
    }
}

/// The value, where it is an integer.
pub fn keep(value: Value) -> Option<Value>
    ensures { result ≡ m.kept value }
{
    match value {
        Value::Integer(x) => Some(Value::Integer(x)),
        Value::Logical(_) => None,
    }
}

/// The other truth value.
pub fn deny(value: Value) -> Option<Value>
    ensures { result ≡ m.denied value }
{
    match value {
        Value::Logical(b) => Some(Value::Logical(!b)),
        Value::Integer(_) => None,
    }
}

//! Words of values, and what is calculated with words.
ghost use Rattle.std.specs.Prelude.{◌≡◌};
ghost use Rattle.std.specs.Option.{option_map};
ghost use Rattle.f77_semantics.specs.Values.{stored};
ghost use Rattle.f77_values.specs.Arithmetic.{divided};
ghost use Rattle.ir_core.specs.Words as w;

use f77_tree::{Op, Ty, Value};
use f77_values::operate;
use ir_core::Calc;

/// The word of a truth value.
pub fn truth_word(truth: bool) -> i64
    ensures { result ≡ w.truth_word truth }
{
    if truth { 1 } else { 0 }
}

/// The word of a value.
pub fn word_of(value: Value) -> i64
    ensures { result ≡ w.word_of (stored value) }
{
    match value {
        Value::Integer(x) => x,
        Value::Logical(truth) => truth_word(truth),
    }
}

/// The truth value of a word, if it is one's.
pub fn truth_of(x: i64) -> Option<bool>
    ensures { result ≡ w.truth_of x }
{
    if x == 0 {
        Some(false)
    } else if x == 1 {
        Some(true)
    } else {
        None
    }
}

/// The value of this type that has the word.
pub fn value_of(ty: Ty, x: i64) -> Option<Value>
    ensures { option_map stored result ≡ w.value_of ty x }
{
    match ty {
        Ty::Integer => Some(Value::Integer(x)),
        Ty::Logical => match truth_of(x) {
            Some(truth) => Some(Value::Logical(truth)),
            None => None,
        },
    }
}

fn quotient(x: i64, y: i64) -> Option<i64>
    ensures { result ≡ divided x y }
{
    match operate(Op::Div, Value::Integer(x), Value::Integer(y)) {
        Some(Value::Integer(quotient)) => Some(quotient),
        _ => None,
    }
}

// The remainder of a division by -1 is 0, also where the quotient isn't a word.
fn remainder(x: i64, y: i64) -> Option<i64>
    ensures { result ≡ w.remainder x y }
{
    if y == 0 {
        None
    } else if y == -1 {
        Some(0)
    } else {
        Some(x % y)
    }
}

fn shifted(x: i64) -> i64
    ensures { result ≡ w.shifted x }
{
    if x < 0 { -1 } else { 0 }
}

/// What is calculated with two words, unless the second is a divisor and 0.
pub fn calculated(calc: Calc, x: i64, y: i64) -> Option<i64>
    ensures { result ≡ w.calculated calc x y }
{
    match calc {
        Calc::Add => Some(x.wrapping_add(y)),
        Calc::Sub => Some(x.wrapping_sub(y)),
        Calc::Mul => Some(x.wrapping_mul(y)),
        Calc::Div => quotient(x, y),
        Calc::Rem => remainder(x, y),
        Calc::And => Some(x & y),
        Calc::Or => Some(x | y),
        Calc::Xor => Some(x ^ y),
        Calc::Eq => Some(truth_word(x == y)),
        Calc::Ne => Some(truth_word(x != y)),
        Calc::Lt => Some(truth_word(x < y)),
        Calc::Le => Some(truth_word(x <= y)),
        Calc::Gt => Some(truth_word(x > y)),
        Calc::Ge => Some(truth_word(x >= y)),
        Calc::Shift63 => Some(shifted(x)),
    }
}

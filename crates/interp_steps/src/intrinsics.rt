//! Intrinsic functions.
ghost use Rattle.std.specs.Prelude.{◌≡◌, pos, neg_ℤ, int_lt, ◌-ℤ◌, ◌*ℤ◌, if◌then◌else◌};
ghost use Rattle.std.specs.Int.{is_negative};
ghost use Rattle.f77_values.specs.Arithmetic.{divided, wrap};
ghost use Rattle.f77_semantics.specs.Values as v;
ghost use Rattle.interp_steps.specs.Numbers.{one, two};
ghost use Rattle.interp_steps.specs.Stops.{Gives};

use super::stop::Stop;
use f77_names::Intrinsic;
use f77_tree::{Op, Value};
use f77_values::operate;

fn greatest(first: i64, others: &[i64]) -> i64
    ensures { result ≡ v.greatest first others.now }
{
    let mut best = first;
    for other in others {
        best = best.max(*other);
    }
    best
}

fn least(first: i64, others: &[i64]) -> i64
    ensures { result ≡ v.least first others.now }
{
    let mut best = first;
    for other in others {
        best = best.min(*other);
    }
    best
}

fn difference(x: i64, y: i64) -> i64
    ensures { result ≡ wrap (x -ℤ y) }
{
    x.wrapping_sub(y)
}

fn product(x: i64, y: i64) -> i64
    ensures { result ≡ wrap (x *ℤ y) }
{
    x.wrapping_mul(y)
}

fn negative(x: i64) -> i64
    ensures { result ≡ wrap (neg_ℤ x) }
{
    x.wrapping_neg()
}

#[tactic(auto, using(crate::proofs::Sizes::sizes))]
fn absolute(x: i64) -> i64
    ensures { result ≡ v.absolute x }
{
    if x < 0 { negative(x) } else { x }
}

// The absolute value of x with the sign of y.
fn with_sign(x: i64, y: i64) -> i64
    ensures { result ≡ (if is_negative y then wrap (neg_ℤ (v.absolute x)) else v.absolute x) }
{
    let size = absolute(x);
    if y < 0 { negative(size) } else { size }
}

fn positive_difference(x: i64, y: i64) -> i64
    ensures { result ≡ (if int_lt y x then wrap (x -ℤ y) else pos 0) }
{
    if y < x { difference(x, y) } else { 0 }
}

// The quotient, where there is one, is that of the operator.
#[tactic(auto, using(crate::proofs::Sizes::remains))]
fn remainder(x: i64, y: i64) -> Option<i64>
    ensures { result ≡ v.remainder x y (divided x y) }
{
    match operate(Op::Div, Value::Integer(x), Value::Integer(y)) {
        Some(Value::Integer(quotient)) => Some(difference(x, product(quotient, y))),
        _ => None,
    }
}

// The one number of a list.
fn only(numbers: &[i64]) -> Result<i64, Stop>
    ensures { Gives result (λ x. x) (one numbers.now) }
{
    match numbers.split_first() {
        Some((x, others)) if others.is_empty() => Ok(*x),
        _ => Err(Stop::Stuck),
    }
}

// The two numbers of a list.
fn pair(numbers: &[i64]) -> Result<(i64, i64), Stop>
    ensures { Gives result (λ p. p) (two numbers.now) }
{
    let (x, others) = numbers.split_first().ok_or(Stop::Stuck)?;
    let y = only(others)?;
    Ok((*x, y))
}

/// The value of an intrinsic function.
#[tactic(auto, using(crate::proofs::Arities::arities))]
pub fn intrinsic(which: Intrinsic, numbers: &[i64]) -> Result<i64, Stop>
    ensures { Gives result (λ x. x) (v.intrinsic which numbers.now) }
{
    match which {
        Intrinsic::Abs => Ok(absolute(only(numbers)?)),
        Intrinsic::Mod => {
            let (x, y) = pair(numbers)?;
            remainder(x, y).ok_or(Stop::Undefined(5))
        }
        Intrinsic::Sign => {
            let (x, y) = pair(numbers)?;
            Ok(with_sign(x, y))
        }
        Intrinsic::Dim => {
            let (x, y) = pair(numbers)?;
            Ok(positive_difference(x, y))
        }
        Intrinsic::Max => match numbers.split_first() {
            Some((first, others)) => Ok(greatest(*first, others)),
            None => Err(Stop::Stuck),
        },
        Intrinsic::Min => match numbers.split_first() {
            Some((first, others)) => Ok(least(*first, others)),
            None => Err(Stop::Stuck),
        },
    }
}

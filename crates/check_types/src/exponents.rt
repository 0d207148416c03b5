//! Exponents.
ghost use Rattle.std.specs.Prelude.{◌≡◌};
ghost use Rattle.std.specs.List.{list_any};
ghost use Rattle.f77_values.specs.Arithmetic as m;
ghost use Rattle.f77_values.specs.Constants as c;
ghost use Rattle.check_types.specs.Exponents as x;

use f77_tree::{Expr, List, Op, Value};
use f77_values::{Table, denied, kept, negated, operated};

/// The value of an expression, if it is constant, and whether an exponent in it is no constant from 0 to 62.
#[derive(Clone, Copy, Debug, Drop)]
pub struct Reckoned {
    pub value: Option<Value>,
    pub wrong: bool,
}

fn sound(value: Option<Value>) -> Reckoned
    ensures { result ≡ x.sound value }
{
    Reckoned {
        value,
        wrong: false,
    }
}

fn is_exponent(value: Option<Value>) -> bool
    ensures { result ≡ x.is_exponent value }
{
    match value {
        Some(Value::Integer(n)) => n >= 0 && n <= 62,
        _ => false,
    }
}

fn is_no_exponent(op: Op, value: Option<Value>) -> bool
    ensures { result ≡ x.is_no_exponent op value }
{
    match op {
        Op::Pow => !is_exponent(value),
        _ => false,
    }
}

fn between(op: Op, a: Reckoned, b: Reckoned) -> Reckoned
    ensures { result ≡ x.reckoned_between op a b }
{
    Reckoned {
        value: operated(op, a.value, b.value),
        wrong: a.wrong | (b.wrong | is_no_exponent(op, b.value)),
    }
}

/// The value of an expression under these named constants, if it is constant, and whether an exponent in it is wrong.
#[tactic(auto, using(crate::proofs::Members::members))]
#[cycle(exponents)]
pub fn reckon(constants: &Table<Value>, e: &Expr) -> Reckoned
    ensures { result ≡ x.reckoned constants.now e.now }
{
    match e {
        Expr::Int(n) => sound(Some(Value::Integer(*n))),
        Expr::Truth(b) => sound(Some(Value::Logical(*b))),
        Expr::Text(_) => sound(None),
        Expr::Scalar(name) => sound(constants.get(name).copied()),
        Expr::Apply(_, list) => Reckoned {
            value: None,
            wrong: have_wrong_exponents(constants, list),
        },
        Expr::Paren(inner) => reckon(constants, inner.get()),
        Expr::Neg(inner) => {
            let inner = reckon(constants, inner.get());
            Reckoned {
                value: negated(inner.value),
                wrong: inner.wrong,
            }
        }
        Expr::Plus(inner) => {
            let inner = reckon(constants, inner.get());
            Reckoned {
                value: kept(inner.value),
                wrong: inner.wrong,
            }
        }
        Expr::Not(inner) => {
            let inner = reckon(constants, inner.get());
            Reckoned {
                value: denied(inner.value),
                wrong: inner.wrong,
            }
        }
        Expr::Binary(op, a, b) => {
            between(*op, reckon(constants, a.get()), reckon(constants, b.get()))
        }
    }
}

#[cycle(exponents)]
fn have_wrong_exponents(constants: &Table<Value>, list: &List<Expr>) -> bool
    ensures { result ≡ list_any (x.has_wrong_exponent constants.now) list.now }
{
    for e in list.as_slice() {
        if reckon(constants, e).wrong {
            return true;
        }
    }
    false
}

/// Whether an exponent in the expression is wrong.
pub fn has_wrong_exponent(constants: &Table<Value>, e: &Expr) -> bool
    ensures { result ≡ x.has_wrong_exponent constants.now e.now }
{
    reckon(constants, e).wrong
}

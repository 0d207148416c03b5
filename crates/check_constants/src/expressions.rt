//! What expressions are made of, and zero divisors in them.
ghost use Rattle.std.specs.Prelude.{◌≡◌};
ghost use Rattle.f77_values.specs.Arithmetic as a;
ghost use Rattle.check_constants.specs.Expressions as x;

use f77_tree::{Expr, Op, Value};
use f77_values::{Table, denied, kept, negated, operated};

/// The value of an expression, if it has one, and whether a zero divisor stands in it.
#[derive(Clone, Copy, Drop)]
pub struct Judged {
    pub value: Option<Value>,
    pub zero_divisor: bool,
}

fn plain(value: Option<Value>) -> Judged
    ensures { result ≡ x.plain value }
{
    Judged {
        value,
        zero_divisor: false,
    }
}

fn divides(op: Op, divisor: Option<Value>) -> bool
    ensures { result ≡ x.divides op divisor }
{
    match (op, divisor) {
        (Op::Div, Some(Value::Integer(n))) => n == 0,
        _ => false,
    }
}

fn joined(op: Op, left: Judged, right: Judged) -> Judged
    ensures { result ≡ x.joined op left right }
{
    let by_parts = left.zero_divisor | right.zero_divisor;
    Judged {
        value: operated(op, left.value, right.value),
        zero_divisor: divides(op, right.value) | by_parts,
    }
}

fn negation(part: Judged) -> Judged
    ensures { result ≡ x.through a.negated part }
{
    Judged {
        value: negated(part.value),
        zero_divisor: part.zero_divisor,
    }
}

fn identity(part: Judged) -> Judged
    ensures { result ≡ x.through a.kept part }
{
    Judged {
        value: kept(part.value),
        zero_divisor: part.zero_divisor,
    }
}

fn denial(part: Judged) -> Judged
    ensures { result ≡ x.through a.denied part }
{
    Judged {
        value: denied(part.value),
        zero_divisor: part.zero_divisor,
    }
}

/// The value of an expression under these named constants, if it has one, and whether a zero divisor stands in it.
#[tactic(auto, using(crate::proofs::Layers::layers))]
pub fn judge(constants: &Table<Value>, e: &Expr) -> Judged
    ensures { result ≡ x.judged constants.now e.now }
{
    match e {
        Expr::Int(n) => plain(Some(Value::Integer(*n))),
        Expr::Truth(b) => plain(Some(Value::Logical(*b))),
        Expr::Scalar(name) => plain(constants.get(name).copied()),
        Expr::Paren(inner) => judge(constants, inner.get()),
        Expr::Neg(inner) => negation(judge(constants, inner.get())),
        Expr::Plus(inner) => identity(judge(constants, inner.get())),
        Expr::Not(inner) => denial(judge(constants, inner.get())),
        Expr::Binary(op, a, b) => joined(*op, judge(constants, a.get()), judge(constants, b.get())),
        Expr::Text(_) | Expr::Apply(_, _) => plain(None),
    }
}

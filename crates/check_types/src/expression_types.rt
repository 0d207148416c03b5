//! The types of expressions.
ghost use Rattle.std.specs.Prelude.{◌≡◌};
ghost use Rattle.check_types.specs.ExpressionTypes as x;

use f77_names::{Facts, is_called, name_type, standing_of};
use f77_tree::{Expr, Name, Op, Ty};

/// The type of an operator's operands.
pub fn takes(op: Op) -> Ty
    ensures { result ≡ x.takes op }
{
    match op {
        Op::And | Op::Or | Op::Eqv | Op::Neqv => Ty::Logical,
        _ => Ty::Integer,
    }
}

/// The type of what an operator gives.
pub fn gives(op: Op) -> Ty
    ensures { result ≡ x.gives op }
{
    match op {
        Op::Pow | Op::Mul | Op::Div | Op::Add | Op::Sub => Ty::Integer,
        _ => Ty::Logical,
    }
}

/// The type of a name that stands without a list.
pub fn plain_type(facts: &Facts, name: &Name) -> Option<Ty>
    ensures { result ≡ x.plain_type facts.now name.now }
{
    if is_called(standing_of(facts, name)) {
        return None;
    }
    name_type(facts, name)
}

/// The type of an expression, if it has one that programs compute with.
#[tactic(auto, using(crate::proofs::Typing::typing))]
pub fn expression_type(facts: &Facts, e: &Expr) -> Option<Ty>
    ensures { result ≡ x.expression_type facts.now e.now }
{
    match e {
        Expr::Int(_) | Expr::Neg(_) | Expr::Plus(_) => Some(Ty::Integer),
        Expr::Truth(_) | Expr::Not(_) => Some(Ty::Logical),
        Expr::Text(_) => None,
        Expr::Scalar(name) => plain_type(facts, name),
        Expr::Apply(name, _) => name_type(facts, name),
        Expr::Paren(inner) => expression_type(facts, inner.get()),
        Expr::Binary(op, _, _) => Some(gives(*op)),
    }
}

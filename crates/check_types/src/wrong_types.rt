//! Expressions with a wrong type in them.
ghost use Rattle.std.specs.Prelude.{◌≡◌};
ghost use Rattle.std.specs.List.{list_any};
ghost use Rattle.check_types.specs.WrongTypes as w;

use super::expression_types::{gives, plain_type, takes};
use super::places::{Place, member_place, wanted};
use f77_names::{Facts, Intrinsic, Standing, intrinsic_of, name_type, standing_of};
use f77_tree::{Expr, List, Name, Ty};

/// Whether two types differ. What has no type differs from none.
pub fn differs(wanted: Option<Ty>, found: Option<Ty>) -> bool
    ensures { result ≡ w.differs wanted found }
{
    match (wanted, found) {
        (Some(Ty::Integer), Some(Ty::Logical)) => true,
        (Some(Ty::Logical), Some(Ty::Integer)) => true,
        _ => false,
    }
}

fn takes_number(intrinsic: Intrinsic, n: usize) -> bool
    ensures { result ≡ w.takes_number intrinsic n }
{
    match intrinsic {
        Intrinsic::Abs => n == 1,
        Intrinsic::Mod | Intrinsic::Sign | Intrinsic::Dim => n == 2,
        Intrinsic::Max | Intrinsic::Min => n >= 2,
    }
}

fn takes_arguments(intrinsic: Option<Intrinsic>, n: usize) -> bool
    ensures { result ≡ w.takes_arguments intrinsic n }
{
    match intrinsic {
        Some(intrinsic) => takes_number(intrinsic, n),
        None => true,
    }
}

fn is_miscalled(standing: Standing, name: &Name, n: usize) -> bool
    ensures { result ≡ w.is_miscalled standing name.now n }
{
    match standing {
        Standing::Intrinsic => !takes_arguments(intrinsic_of(name), n),
        _ => false,
    }
}

/// Whether an expression at its place has a wrong type, or has one or a wrong number of arguments in it.
#[tactic(auto, using(crate::proofs::Members::members))]
#[cycle(types)]
pub fn is_mistyped(facts: &Facts, place: Place, e: &Expr) -> bool
    ensures { result ≡ w.is_mistyped facts.now place e.now }
{
    match e {
        Expr::Int(_) => differs(wanted(place), Some(Ty::Integer)),
        Expr::Truth(_) => differs(wanted(place), Some(Ty::Logical)),
        Expr::Text(_) => wanted(place).is_some(),
        Expr::Scalar(name) => differs(wanted(place), plain_type(facts, name)),
        Expr::Apply(name, list) => {
            let standing = standing_of(facts, name);
            let typed = differs(wanted(place), name_type(facts, name));
            let called = is_miscalled(standing, name, list.len());
            typed | (called | are_mistyped(facts, member_place(standing), list))
        }
        Expr::Paren(inner) => is_mistyped(facts, Place::Value(wanted(place)), inner.get()),
        Expr::Neg(inner) | Expr::Plus(inner) => {
            let typed = differs(wanted(place), Some(Ty::Integer));
            typed | is_mistyped(facts, Place::Value(Some(Ty::Integer)), inner.get())
        }
        Expr::Not(inner) => {
            let typed = differs(wanted(place), Some(Ty::Logical));
            typed | is_mistyped(facts, Place::Value(Some(Ty::Logical)), inner.get())
        }
        Expr::Binary(op, a, b) => {
            let typed = differs(wanted(place), Some(gives(*op)));
            let operand = Place::Value(Some(takes(*op)));
            typed | (is_mistyped(facts, operand, a.get()) | is_mistyped(facts, operand, b.get()))
        }
    }
}

#[cycle(types)]
fn are_mistyped(facts: &Facts, place: Place, list: &List<Expr>) -> bool
    ensures { result ≡ list_any (w.is_mistyped facts.now place) list.now }
{
    for e in list.as_slice() {
        if is_mistyped(facts, place, e) {
            return true;
        }
    }
    false
}

//! Names that stand where a scalar is needed and are none.
ghost use Rattle.std.specs.Prelude.{◌≡◌};
ghost use Rattle.std.specs.List.{list_any};
ghost use Rattle.check_types.specs.Scalars as s;

use super::places::{Place, member_place, wanted};
use f77_names::{Facts, is_array, is_called, standing_of};
use f77_tree::{Expr, List, Name};

fn is_passed(facts: &Facts, name: &Name) -> bool
    ensures { result ≡ s.is_passed facts.now name.now }
{
    facts.attributes.external.contains(name) | facts.attributes.intrinsic.contains(name)
}

fn is_no_scalar(facts: &Facts, place: Place, name: &Name) -> bool
    ensures { result ≡ s.is_no_scalar facts.now place name.now }
{
    let standing = standing_of(facts, name);
    match place {
        Place::Value(_) => is_array(standing) | is_called(standing),
        Place::Actual => is_called(standing) & !is_passed(facts, name),
        Place::Named => false,
    }
}

/// Whether a name without a list in an expression at its place is no scalar where one is needed.
#[tactic(auto, using(crate::proofs::Members::members))]
#[cycle(scalars)]
pub fn is_misplaced(facts: &Facts, place: Place, e: &Expr) -> bool
    ensures { result ≡ s.is_misplaced facts.now place e.now }
{
    match e {
        Expr::Int(_) | Expr::Truth(_) | Expr::Text(_) => false,
        Expr::Scalar(name) => is_no_scalar(facts, place, name),
        Expr::Apply(name, list) => {
            are_misplaced(facts, member_place(standing_of(facts, name)), list)
        }
        Expr::Paren(inner) | Expr::Neg(inner) | Expr::Plus(inner) | Expr::Not(inner) => {
            is_misplaced(facts, Place::Value(wanted(place)), inner.get())
        }
        Expr::Binary(_, a, b) => {
            let inside = Place::Value(wanted(place));
            is_misplaced(facts, inside, a.get()) | is_misplaced(facts, inside, b.get())
        }
    }
}

#[cycle(scalars)]
fn are_misplaced(facts: &Facts, place: Place, list: &List<Expr>) -> bool
    ensures { result ≡ list_any (s.is_misplaced facts.now place) list.now }
{
    for e in list.as_slice() {
        if is_misplaced(facts, place, e) {
            return true;
        }
    }
    false
}

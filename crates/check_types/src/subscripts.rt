//! Array elements with another number of subscripts than the array has.
ghost use Rattle.std.specs.Prelude.{◌≡◌};
ghost use Rattle.std.specs.List.{list_any};
ghost use Rattle.check_types.specs.Subscripts as s;

use f77_names::{Facts, rank_of};
use f77_tree::{Expr, List};

fn miscounts(rank: Option<usize>, n: usize) -> bool
    ensures { result ≡ s.miscounts rank n }
{
    match rank {
        Some(rank) => rank != n,
        None => false,
    }
}

/// Whether an array in the expression has another number of subscripts than it has dimensions.
#[tactic(auto, using(crate::proofs::Members::members))]
#[cycle(subscripts)]
pub fn is_miscounted(facts: &Facts, e: &Expr) -> bool
    ensures { result ≡ s.is_miscounted facts.now e.now }
{
    match e {
        Expr::Int(_) | Expr::Truth(_) | Expr::Text(_) | Expr::Scalar(_) => false,
        Expr::Apply(name, list) => {
            miscounts(rank_of(facts, name), list.len()) | are_miscounted(facts, list)
        }
        Expr::Paren(inner) | Expr::Neg(inner) | Expr::Plus(inner) | Expr::Not(inner) => {
            is_miscounted(facts, inner.get())
        }
        Expr::Binary(_, a, b) => is_miscounted(facts, a.get()) | is_miscounted(facts, b.get()),
    }
}

#[cycle(subscripts)]
fn are_miscounted(facts: &Facts, list: &List<Expr>) -> bool
    ensures { result ≡ list_any (s.is_miscounted facts.now) list.now }
{
    for e in list.as_slice() {
        if is_miscounted(facts, e) {
            return true;
        }
    }
    false
}

//! What targets of assignment and READ are by themselves.
ghost use Rattle.std.specs.Prelude.{◌≡◌};
ghost use Rattle.check_types.specs.Targets as t;

use f77_names::{Facts, is_array, is_scalar, name_type, standing_of};
use f77_tree::{Expr, Ty};

/// The type of a target is its name's.
pub fn target_type(facts: &Facts, target: &Expr) -> Option<Ty>
    ensures { result ≡ t.target_type facts.now target.now }
{
    match target {
        Expr::Scalar(name) | Expr::Apply(name, _) => name_type(facts, name),
        _ => None,
    }
}

/// Whether a target is an array's name, or has subscripts and is no array.
pub fn is_no_element(facts: &Facts, target: &Expr) -> bool
    ensures { result ≡ t.is_no_element facts.now target.now }
{
    match target {
        Expr::Scalar(name) => is_array(standing_of(facts, name)),
        Expr::Apply(name, _) => !is_array(standing_of(facts, name)),
        _ => false,
    }
}

/// Whether a target is neither a scalar variable nor an array element.
pub fn is_no_variable(facts: &Facts, target: &Expr) -> bool
    ensures { result ≡ t.is_no_variable facts.now target.now }
{
    match target {
        Expr::Scalar(name) => !is_scalar(standing_of(facts, name)),
        Expr::Apply(name, _) => !is_array(standing_of(facts, name)),
        _ => true,
    }
}

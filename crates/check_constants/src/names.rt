//! What names are in the whole unit.
ghost use Rattle.std.specs.Prelude.{◌≡◌, is_some};
ghost use Rattle.check_constants.specs.Needed as m;

use f77_names::{Facts, is_scalar, name_type, standing_of};
use f77_store::Place;
use f77_tree::{Name, Ty};
use f77_values::Table;

fn is_integer(ty: Option<Ty>) -> bool
    ensures { result ≡ m.is_integer ty }
{
    match ty {
        Some(Ty::Integer) => true,
        _ => false,
    }
}

/// Whether the name is a scalar dummy or a scalar in COMMON, of type INTEGER.
pub fn is_adjustable(facts: &Facts, commons: &Table<Place>, name: &Name) -> bool
    ensures { result ≡ m.is_adjustable facts.now commons.now name.now }
{
    let shared = facts.attributes.dummies.contains(name) | commons.get(name).is_some();
    is_scalar(standing_of(facts, name)) & (is_integer(name_type(facts, name)) & shared)
}

//! Where expressions stand in a statement.
ghost use Rattle.std.specs.Prelude.{◌≡◌};
ghost use Rattle.check_types.specs.Places as p;

use f77_names::Standing;
use f77_tree::Ty;

/// Where an expression stands.
#[derive(Clone, Copy, Debug, Drop, PartialEq, Eq)]
pub enum Place {
    /// Where a scalar value is needed: one of this type, if there is one.
    Value(Option<Ty>),
    /// In the list of a function or of CALL.
    Actual,
    /// As a target or an item of DATA.
    Named,
}

/// The type that is wanted at a place, if there is one.
pub fn wanted(place: Place) -> Option<Ty>
    ensures { result ≡ p.wanted place }
{
    match place {
        Place::Value(ty) => ty,
        Place::Actual | Place::Named => None,
    }
}

/// Where the members of a name's list stand.
pub fn member_place(standing: Standing) -> Place
    ensures { result ≡ p.member_place standing }
{
    match standing {
        Standing::Array | Standing::Intrinsic => Place::Value(Some(Ty::Integer)),
        _ => Place::Actual,
    }
}

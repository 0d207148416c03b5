//! What names are, and their types.
ghost use Rattle.std.specs.Prelude.{◌≡◌, length};
ghost use Rattle.f77_values.specs.Tables as n;
ghost use Rattle.f77_names.specs.Roles as r;
ghost use Rattle.f77_names.specs.Types as t;
ghost use Rattle.f77_names.specs.Standings as s;

use super::attributes::{is_function, is_intrinsic};
use super::declarations::Shape;
use super::facts::Facts;
use super::types::{name_word, storage_type};
use f77_tree::{Name, Ty, TypeWord};
use f77_values::Table;

/// What a name is in its unit. A function's result variable is a scalar.
#[derive(Clone, Copy, Debug, Drop, PartialEq, Eq)]
pub enum Standing {
    Scalar,
    Array,
    /// A named constant.
    Constant,
    Intrinsic,
    Function,
    Subroutine,
    /// In EXTERNAL alone.
    Procedure,
}

/// What a name is.
pub fn standing_of(facts: &Facts, name: &Name) -> Standing
    ensures { result ≡ s.standing_of facts.now name.now }
{
    if facts.attributes.arrays.contains(name) {
        return Standing::Array;
    }
    if facts.attributes.constants.contains(name) {
        return Standing::Constant;
    }
    if is_intrinsic(&facts.attributes, name) {
        return Standing::Intrinsic;
    }
    if is_function(&facts.attributes, name) {
        return Standing::Function;
    }
    if facts.attributes.called.contains(name) {
        return Standing::Subroutine;
    }
    if facts.attributes.external.contains(name) {
        return Standing::Procedure;
    }
    Standing::Scalar
}

fn standing_type(standing: Standing, word: TypeWord) -> Option<Ty>
    ensures { result ≡ s.standing_type standing word }
{
    match standing {
        Standing::Subroutine | Standing::Procedure => None,
        Standing::Intrinsic => Some(Ty::Integer),
        _ => storage_type(word),
    }
}

/// The type of a name, if it has one that programs compute with.
#[tactic(auto, using(crate::proofs::Typing::typing))]
pub fn name_type(facts: &Facts, name: &Name) -> Option<Ty>
    ensures { result ≡ r.type_of facts.now name.now }
{
    let word = name_word(&facts.words, &facts.letters, name);
    standing_type(standing_of(facts, name), word)
}

/// Whether a name with this standing is called, and so is no value without a list.
pub fn is_called(standing: Standing) -> bool
    ensures { result ≡ s.is_called standing }
{
    match standing {
        Standing::Intrinsic | Standing::Function | Standing::Subroutine | Standing::Procedure => {
            true
        }
        _ => false,
    }
}

/// Whether it is an array.
pub fn is_array(standing: Standing) -> bool
    ensures { result ≡ s.is_array standing }
{
    match standing {
        Standing::Array => true,
        _ => false,
    }
}

/// Whether it is a scalar variable.
pub fn is_scalar(standing: Standing) -> bool
    ensures { result ≡ s.is_scalar standing }
{
    match standing {
        Standing::Scalar => true,
        _ => false,
    }
}

fn dimensions(shapes: &Table<Shape>, name: &Name) -> usize
    ensures { result ≡ length (r.bounds_of (n.what shapes.now name.now)) }
{
    match shapes.get(name) {
        Some(shape) => shape.bounds.len(),
        None => 0,
    }
}

/// The number of subscripts of an array.
pub fn rank_of(facts: &Facts, name: &Name) -> Option<usize>
    ensures { result ≡ s.rank_of facts.now name.now }
{
    if facts.attributes.arrays.contains(name) {
        return Some(dimensions(&facts.shapes, name));
    }
    None
}

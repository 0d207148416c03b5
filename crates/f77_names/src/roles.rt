//! Roles and types of names.
ghost use Rattle.std.specs.Prelude.{◌≡◌, IfOk, map};
ghost use Rattle.f77_values.specs.Tables as n;
ghost use Rattle.f77_names.specs.Roles as r;

use super::declarations::Shape;
use super::facts::Facts;
use super::occurrences::Occurrence;
use super::standings::{Standing, name_type, standing_of};
use f77_tree::{Duplicate, List, Name, Ty, Value};
use f77_values::{Bounds, Names, Table};
use std::alloc::{AllocError, Global};

/// What a name is in its unit. A function's result variable is a scalar.
#[derive(Drop)]
pub enum Role {
    Scalar,
    /// With its bounds.
    Array(Bounds),
    /// With its value.
    Constant(Value),
    Intrinsic,
    Function,
    Subroutine,
    /// In EXTERNAL alone.
    Procedure,
}

/// A name with its type, if it has one, and its role.
#[derive(Drop)]
pub struct Known {
    pub name: Name,
    pub ty: Option<Ty>,
    pub role: Role,
}

fn bounds_of(alloc: Global, shapes: &Table<Shape>, name: &Name) -> Result<Bounds, AllocError>
    ensures { IfOk result (λ bounds. bounds ≡ r.bounds_of (n.what shapes.now name.now)) }
{
    match shapes.get(name) {
        Some(shape) => shape.bounds.duplicate(alloc),
        None => Ok(List::new(alloc)),
    }
}

fn constant_of(constants: &Table<Value>, name: &Name) -> Value
    ensures { result ≡ r.constant_of (n.what constants.now name.now) }
{
    match constants.get(name) {
        Some(value) => *value,
        None => Value::Integer(0),
    }
}

/// What a name is.
#[tactic(auto, using(crate::proofs::Typing::typing))]
pub fn role_of(alloc: Global, facts: &Facts, name: &Name) -> Result<Role, AllocError>
    ensures { IfOk result (λ role. role ≡ r.role facts.now name.now) }
{
    match standing_of(facts, name) {
        Standing::Scalar => Ok(Role::Scalar),
        Standing::Array => Ok(Role::Array(bounds_of(alloc, &facts.shapes, name)?)),
        Standing::Constant => Ok(Role::Constant(constant_of(&facts.constants, name))),
        Standing::Intrinsic => Ok(Role::Intrinsic),
        Standing::Function => Ok(Role::Function),
        Standing::Subroutine => Ok(Role::Subroutine),
        Standing::Procedure => Ok(Role::Procedure),
    }
}

/// A name with its type and its role.
pub fn known_name(alloc: Global, facts: &Facts, name: &Name) -> Result<Known, AllocError>
    ensures { IfOk result (λ k. k ≡ r.known facts.now name.now) }
{
    Ok(Known {
        name: name.copy(alloc)?,
        ty: name_type(facts, name),
        role: role_of(alloc, facts, name)?,
    })
}

fn in_order(alloc: Global, all: &List<Occurrence>) -> Result<Names, AllocError>
    ensures { IfOk result (λ names. names ≡ r.in_order all.now) }
{
    let mut names = Names::new(alloc);
    for occurrence in all.as_slice() {
        names.insert(occurrence.name.copy(alloc)?)?;
    }
    Ok(names)
}

#[tactic(auto, using(crate::proofs::Joined::joined))]
fn all_known(alloc: Global, facts: &Facts, names: &Names) -> Result<List<Known>, AllocError>
    ensures { IfOk result (λ all. all ≡ map (r.known facts.now) names.now) }
{
    let mut found = List::new(alloc);
    for name in names.as_slice() {
        found.push(known_name(alloc, facts, name)?)?;
    }
    Ok(found)
}

/// The names of a unit in the order of first appearance, each with its type and its role.
pub fn names_of(
    alloc: Global,
    facts: &Facts,
    all: &List<Occurrence>,
) -> Result<List<Known>, AllocError>
    ensures { IfOk result (λ names. names ≡ r.names_with facts.now all.now) }
{
    let names = in_order(alloc, all)?;
    all_known(alloc, facts, &names)
}

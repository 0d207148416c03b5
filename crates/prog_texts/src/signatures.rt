//! What a unit is to its callers.
ghost use Rattle.std.specs.Prelude.{◌≡◌, map, IfOk};
ghost use Rattle.f77_names.specs.Roles as r;
ghost use Rattle.prog_texts.specs.Signatures as s;

use f77_names::{Facts, Role, known_name, name_type};
use f77_tree::{List, Name, Ty, Unit, UnitKind};
use std::alloc::{AllocError, Global};

/// What a dummy is: a scalar, an array, or what is called or stands in EXTERNAL.
#[derive(Clone, Copy, Debug, Drop)]
pub enum Shape {
    Scalar,
    Array,
    Procedure,
}

/// A dummy with its type, if it has one.
#[derive(Clone, Copy, Debug, Drop)]
pub struct Dummy {
    pub shape: Shape,
    pub ty: Option<Ty>,
}

/// What a unit is to its callers: its kind, its dummies, the type of its name, and its place in the list of units.
#[derive(Drop)]
pub struct Signature {
    pub kind: UnitKind,
    pub dummies: List<Dummy>,
    pub result: Option<Ty>,
    pub place: usize,
}

fn shape_of(role: &Role) -> Shape
    ensures { result ≡ s.shape role.now }
{
    match role {
        Role::Scalar => Shape::Scalar,
        Role::Array(_) => Shape::Array,
        _ => Shape::Procedure,
    }
}

fn dummy_of(alloc: Global, facts: &Facts, name: &Name) -> Result<Dummy, AllocError>
    ensures { IfOk result (λ d. d ≡ s.dummy facts.now name.now) }
{
    let known = known_name(alloc, facts, name)?;
    Ok(Dummy {
        shape: shape_of(&known.role),
        ty: known.ty,
    })
}

#[tactic(auto, using(crate::proofs::Said::joined))]
fn dummies_of(alloc: Global, facts: &Facts, names: &List<Name>) -> Result<List<Dummy>, AllocError>
    ensures { IfOk result (λ all. all ≡ map (s.dummy facts.now) names.now) }
{
    let mut all = List::new(alloc);
    for name in names.as_slice() {
        all.push(dummy_of(alloc, facts, name)?)?;
    }
    Ok(all)
}

/// What a unit is to its callers, given its facts and its place.
pub fn signature_of(
    alloc: Global,
    facts: &Facts,
    unit: &Unit,
    place: usize,
) -> Result<Signature, AllocError>
    ensures { IfOk result (λ all. all ≡ s.signature_with facts.now unit.now place) }
{
    let result = name_type(facts, &unit.name);
    let dummies = dummies_of(alloc, facts, &unit.dummies)?;
    Ok(Signature {
        kind: unit.kind,
        dummies,
        result,
        place,
    })
}

//! The dummy arrays of a unit, and the steps of their bounds.
ghost use Rattle.std.specs.Prelude.{◌≡◌, ◌++◌, map, IfOk, OnOk};
ghost use Rattle.f77_names.specs.Roles as roles;
ghost use Rattle.f77_semantics.specs.Source as source;
ghost use Rattle.interp_data.specs.Meant.{meant};
ghost use Rattle.interp_lower.specs.Pieces as p;
ghost use Rattle.interp_lower.specs.Routines as r;

use super::numbers::{push_number, push_or_one};
use super::steps::add;
use f77_names::{Role, role_of};
use f77_tree::{Expr, List, Name};
use interp_code::Step;
use interp_data::Lookup;
use std::alloc::{AllocError, Global};

/// A dummy array by its position among the dummies, counted from 0, with the steps of its bounds, which have no sites.
#[derive(Drop)]
pub struct DummyArray {
    pub dummy: usize,
    pub bounds: List<Step>,
}

// A mark stands for `*`.
fn push_upper(
    alloc: Global,
    code: &mut List<Step>,
    names: &Lookup,
    bound: &Option<Expr>,
) -> Result<(), AllocError>
    ensures { OnOk result (code.new ≡ code.old ++ p.upper_steps (meant names.now) bound.now) }
{
    match bound {
        Some(e) => {
            push_number(alloc, code, names, 1, e)?;
            Ok(())
        }
        None => add(code, Step::Open),
    }
}

#[tactic(auto, using(crate::proofs::Preludes::preludes))]
fn push_bound(
    alloc: Global,
    code: &mut List<Step>,
    names: &Lookup,
    bound: &(Option<Expr>, Option<Expr>),
) -> Result<(), AllocError>
    ensures { OnOk result (code.new ≡ code.old ++ p.bound_steps (meant names.now) bound.now) }
{
    push_or_one(alloc, code, names, 1, &bound.0)?;
    push_upper(alloc, code, names, &bound.1)
}

#[tactic(auto, using(crate::proofs::Dimensions::dimensions))]
fn bounds_steps(
    alloc: Global,
    names: &Lookup,
    bounds: &List<(Option<Expr>, Option<Expr>)>,
) -> Result<List<Step>, AllocError>
    ensures { IfOk result (λ steps. steps ≡ p.bounds_steps (meant names.now) bounds.now) }
{
    let mut steps = List::new(alloc);
    for bound in bounds.as_slice() {
        push_bound(alloc, &mut steps, names, bound)?;
    }
    Ok(steps)
}

#[tactic(auto, using(crate::proofs::Dimensions::dimensions))]
fn push_array(
    alloc: Global,
    found: &mut List<DummyArray>,
    names: &Lookup,
    dummy: usize,
    role: &Role,
) -> Result<(), AllocError>
    ensures { OnOk result (map r.dummy_of found.new ≡ map r.dummy_of found.old ++ map r.dummy_as (source.dummy_array (meant names.now) dummy role.now)) }
{
    match role {
        Role::Array(bounds) => {
            let bounds = bounds_steps(alloc, names, bounds)?;
            found.push(DummyArray { dummy, bounds })
        }
        Role::Scalar
        | Role::Constant(_)
        | Role::Intrinsic
        | Role::Function
        | Role::Subroutine
        | Role::Procedure => Ok(()),
    }
}

fn push_dummy(
    alloc: Global,
    found: &mut List<DummyArray>,
    names: &Lookup,
    dummy: usize,
    name: &Name,
) -> Result<(), AllocError>
    ensures { OnOk result (map r.dummy_of found.new ≡ map r.dummy_of found.old ++ map r.dummy_as (source.dummy_array (meant names.now) dummy (roles.role names.now.facts name.now))) }
{
    let role = role_of(alloc, &names.facts, name)?;
    push_array(alloc, found, names, dummy, &role)
}

/// The arrays among the dummies of a unit.
#[tactic(auto, using(crate::proofs::Dimensions::dimensions))]
pub fn dummy_arrays(
    alloc: Global,
    names: &Lookup,
    dummies: &List<Name>,
) -> Result<List<DummyArray>, AllocError>
    ensures { IfOk result (λ all. map r.dummy_of all ≡ map r.dummy_as (source.dummy_arrays_from names.now.facts (meant names.now) 0 dummies.now)) }
{
    let mut found = List::new(alloc);
    let all = dummies.as_slice();
    for k in 0..all.len() {
        push_dummy(alloc, &mut found, names, k, &all[k])?;
    }
    Ok(found)
}

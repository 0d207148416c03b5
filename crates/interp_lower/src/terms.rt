//! The steps of expressions. Each function puts the steps of a part behind those that are there, from the number of the part's first site
//! on, and gives the number of the site that follows.
ghost use Rattle.std.specs.Prelude.{◌≡◌, ◌+◌, ◌++◌, IfOk, OnOk};
ghost use Rattle.interp_data.specs.Meanings as m;
ghost use Rattle.interp_data.specs.Meant.{meant};
ghost use Rattle.interp_lower.specs.Pieces as p;

use super::steps::{add, add_element, bare_step, following};
use f77_tree::{Expr, List, Name, Value};
use interp_code::Step;
use interp_data::{Lookup, Meaning, copy_array, copy_base, meaning_of};
use std::alloc::{AllocError, Global};

type Code = List<Step>;

/// The value of an expression.
#[tactic(auto, using(crate::proofs::Parts::parts))]
#[cycle(terms)]
pub fn push_value(
    alloc: Global,
    code: &mut Code,
    names: &Lookup,
    site: usize,
    e: &Expr,
) -> Result<usize, AllocError>
    ensures next { IfOk result (λ next. next ≡ site + p.site_count (meant names.now) e.now) }
    ensures steps { OnOk result (code.new ≡ code.old ++ p.value_steps (meant names.now) e.now site) }
{
    match e {
        Expr::Int(n) => {
            add(code, Step::Push(Value::Integer(*n)))?;
            Ok(site)
        }
        Expr::Truth(b) => {
            add(code, Step::Push(Value::Logical(*b)))?;
            Ok(site)
        }
        Expr::Text(_) => {
            add(code, Step::Wrong)?;
            Ok(site)
        }
        Expr::Scalar(name) => {
            push_bare(alloc, code, names, name)?;
            Ok(site)
        }
        Expr::Apply(name, list) => {
            let meaning = meaning_of(alloc, names, name)?;
            push_applied(alloc, code, names, site, &meaning, list)
        }
        Expr::Paren(inner) => push_value(alloc, code, names, site, inner.get()),
        Expr::Neg(inner) => {
            let next = push_value(alloc, code, names, site, inner.get())?;
            add(code, Step::Negate)?;
            Ok(next)
        }
        Expr::Plus(inner) => {
            let next = push_value(alloc, code, names, site, inner.get())?;
            add(code, Step::Keep)?;
            Ok(next)
        }
        Expr::Not(inner) => {
            let next = push_value(alloc, code, names, site, inner.get())?;
            add(code, Step::Deny)?;
            Ok(next)
        }
        Expr::Binary(op, a, b) => {
            let middle = push_value(alloc, code, names, site, a.get())?;
            let next = push_value(alloc, code, names, middle, b.get())?;
            add(code, Step::Operate(*op))?;
            Ok(next)
        }
    }
}

fn push_bare(alloc: Global, code: &mut Code, names: &Lookup, name: &Name) -> Result<(), AllocError>
    ensures { OnOk result (code.new ≡ code.old ++ p.bare_steps (meant names.now) name.now) }
{
    let meaning = meaning_of(alloc, names, name)?;
    let step = bare_step(alloc, &meaning)?;
    add(code, step)
}

/// A name with a list, by what it stands for. What has no meaning has its sites all the same.
#[tactic(auto, using(crate::proofs::Parts::parts))]
#[cycle(terms)]
pub fn push_applied(
    alloc: Global,
    code: &mut Code,
    names: &Lookup,
    site: usize,
    meaning: &Meaning,
    list: &List<Expr>,
) -> Result<usize, AllocError>
    ensures next { IfOk result (λ next. next ≡ site + p.applied_sites (meant names.now) (m.meant_of meaning.now) list.now) }
    ensures steps { OnOk result (code.new ≡ code.old ++ p.applied_steps (meant names.now) (m.meant_of meaning.now) list.now site) }
{
    match meaning {
        Meaning::Array(ty, array) => {
            add(code, Step::Open)?;
            let next = push_values(alloc, code, names, site, list)?;
            add_element(alloc, code, *ty, array)?;
            Ok(next)
        }
        Meaning::Intrinsic(intrinsic) => {
            add(code, Step::Open)?;
            let next = push_values(alloc, code, names, site, list)?;
            add(code, Step::Compute(*intrinsic))?;
            Ok(next)
        }
        Meaning::Function => {
            add(code, Step::Open)?;
            let next = push_actuals(alloc, code, names, site, following(site)?, list)?;
            add(code, Step::Refer(site))?;
            Ok(next)
        }
        Meaning::Constant(_) | Meaning::Variable(_, _) | Meaning::Unknown => {
            add(code, Step::Wrong)?;
            let mut unused = List::new(alloc);
            push_values(alloc, &mut unused, names, site, list)
        }
    }
}

/// The values of a list.
#[tactic(auto, using(crate::proofs::Parts::parts))]
#[cycle(terms)]
pub fn push_values(
    alloc: Global,
    code: &mut Code,
    names: &Lookup,
    site: usize,
    list: &List<Expr>,
) -> Result<usize, AllocError>
    ensures next { IfOk result (λ next. next ≡ site + p.site_total (meant names.now) list.now) }
    ensures steps { OnOk result (code.new ≡ code.old ++ p.values_steps (meant names.now) list.now site) }
{
    let mut next = site;
    for e in list.as_slice() {
        next = push_value(alloc, code, names, next, e)?;
    }
    Ok(next)
}

/// The actual arguments of a site.
#[tactic(auto, using(crate::proofs::Parts::parts))]
#[cycle(terms)]
pub fn push_actuals(
    alloc: Global,
    code: &mut Code,
    names: &Lookup,
    callee: usize,
    site: usize,
    list: &List<Expr>,
) -> Result<usize, AllocError>
    ensures next { IfOk result (λ next. next ≡ site + p.site_total (meant names.now) list.now) }
    ensures steps { OnOk result (code.new ≡ code.old ++ p.actuals_steps (meant names.now) callee 0 list.now site) }
{
    let mut next = site;
    let actuals = list.as_slice();
    for j in 0..actuals.len() {
        next = push_actual(alloc, code, names, callee, j, next, &actuals[j])?;
    }
    Ok(next)
}

// What is no variable, array or element is a value.
#[tactic(auto, using(crate::proofs::Parts::parts))]
#[cycle(terms)]
fn push_actual(
    alloc: Global,
    code: &mut Code,
    names: &Lookup,
    callee: usize,
    position: usize,
    site: usize,
    e: &Expr,
) -> Result<usize, AllocError>
    ensures next { IfOk result (λ next. next ≡ site + p.site_count (meant names.now) e.now) }
    ensures steps { OnOk result (code.new ≡ code.old ++ p.actual_steps (meant names.now) callee position e.now site) }
{
    match e {
        Expr::Scalar(name) => {
            let meaning = meaning_of(alloc, names, name)?;
            push_bare_actual(alloc, code, callee, position, &meaning)?;
            Ok(site)
        }
        Expr::Apply(name, list) => {
            let meaning = meaning_of(alloc, names, name)?;
            push_listed_actual(alloc, code, names, callee, position, site, &meaning, list)
        }
        Expr::Int(_)
        | Expr::Truth(_)
        | Expr::Text(_)
        | Expr::Paren(_)
        | Expr::Neg(_)
        | Expr::Plus(_)
        | Expr::Not(_)
        | Expr::Binary(_, _, _) => {
            let next = push_value(alloc, code, names, site, e)?;
            add(code, Step::Hold(callee, position))?;
            Ok(next)
        }
    }
}

fn push_bare_actual(
    alloc: Global,
    code: &mut Code,
    callee: usize,
    position: usize,
    meaning: &Meaning,
) -> Result<(), AllocError>
    ensures { OnOk result (code.new ≡ code.old ++ p.bare_actual_steps callee position (m.meant_of meaning.now)) }
{
    match meaning {
        Meaning::Variable(_, base) => add(code, Step::Pass(copy_base(alloc, base)?)),
        Meaning::Array(_, array) => add(code, Step::PassWhole(copy_array(alloc, array)?)),
        Meaning::Constant(value) => push_held(code, callee, position, Step::Push(*value)),
        Meaning::Function | Meaning::Intrinsic(_) | Meaning::Unknown => {
            push_held(code, callee, position, Step::Wrong)
        }
    }
}

#[tactic(auto, using(interp_data::proofs::Lists::joined))]
fn push_held(code: &mut Code, callee: usize, position: usize, value: Step) -> Result<(), AllocError>
    ensures { OnOk result (code.new ≡ code.old ++ p.held_steps callee position value) }
{
    add(code, value)?;
    add(code, Step::Hold(callee, position))
}

// A name with a list as an actual argument.
#[tactic(auto, using(crate::proofs::Parts::parts))]
#[cycle(terms)]
fn push_listed_actual(
    alloc: Global,
    code: &mut Code,
    names: &Lookup,
    callee: usize,
    position: usize,
    site: usize,
    meaning: &Meaning,
    list: &List<Expr>,
) -> Result<usize, AllocError>
    ensures next { IfOk result (λ next. next ≡ site + p.applied_sites (meant names.now) (m.meant_of meaning.now) list.now) }
    ensures steps { OnOk result (code.new ≡ code.old ++ p.listed_actual_steps (meant names.now) callee position (m.meant_of meaning.now) list.now site) }
{
    match meaning {
        Meaning::Array(_, array) => {
            add(code, Step::Open)?;
            let next = push_values(alloc, code, names, site, list)?;
            add(code, Step::PassRest(copy_array(alloc, array)?))?;
            Ok(next)
        }
        Meaning::Constant(_)
        | Meaning::Variable(_, _)
        | Meaning::Function
        | Meaning::Intrinsic(_)
        | Meaning::Unknown => {
            let next = push_applied(alloc, code, names, site, meaning, list)?;
            add(code, Step::Hold(callee, position))?;
            Ok(next)
        }
    }
}

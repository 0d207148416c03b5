//! The steps of targets, of READ's list and of PRINT's.
ghost use Rattle.std.specs.Prelude.{◌≡◌, ◌+◌, ◌++◌, IfOk, OnOk};
ghost use Rattle.interp_data.specs.Meanings as m;
ghost use Rattle.interp_data.specs.Meant.{meant};
ghost use Rattle.interp_lower.specs.Pieces as p;

use super::steps::{add, aim_step};
use super::terms::{push_applied, push_value, push_values};
use f77_tree::{Expr, List, Name};
use interp_code::Step;
use interp_data::{Lookup, Meaning, copy_array, meaning_of};
use std::alloc::{AllocError, Global};

type Code = List<Step>;

/// The place of a target. What is no variable and no element has no place, and its sites all the same.
#[tactic(auto, using(crate::proofs::Items::places))]
pub fn push_target(
    alloc: Global,
    code: &mut Code,
    names: &Lookup,
    site: usize,
    e: &Expr,
) -> Result<usize, AllocError>
    ensures next { IfOk result (λ next. next ≡ site + p.site_count (meant names.now) e.now) }
    ensures steps { OnOk result (code.new ≡ code.old ++ p.target_steps (meant names.now) e.now site) }
{
    match e {
        Expr::Scalar(name) => {
            push_bare_target(alloc, code, names, name)?;
            Ok(site)
        }
        Expr::Apply(name, list) => {
            let meaning = meaning_of(alloc, names, name)?;
            push_listed_target(alloc, code, names, site, &meaning, list)
        }
        Expr::Int(_)
        | Expr::Truth(_)
        | Expr::Text(_)
        | Expr::Paren(_)
        | Expr::Neg(_)
        | Expr::Plus(_)
        | Expr::Not(_)
        | Expr::Binary(_, _, _) => {
            add(code, Step::Wrong)?;
            let mut unused = List::new(alloc);
            push_value(alloc, &mut unused, names, site, e)
        }
    }
}

fn push_bare_target(
    alloc: Global,
    code: &mut Code,
    names: &Lookup,
    name: &Name,
) -> Result<(), AllocError>
    ensures { OnOk result (code.new ≡ code.old ++ p.bare_target_steps (meant names.now) name.now) }
{
    let meaning = meaning_of(alloc, names, name)?;
    let step = aim_step(alloc, &meaning)?;
    add(code, step)
}

#[tactic(auto, using(crate::proofs::Items::places))]
fn push_listed_target(
    alloc: Global,
    code: &mut Code,
    names: &Lookup,
    site: usize,
    meaning: &Meaning,
    list: &List<Expr>,
) -> Result<usize, AllocError>
    ensures next { IfOk result (λ next. next ≡ site + p.applied_sites (meant names.now) (m.meant_of meaning.now) list.now) }
    ensures steps { OnOk result (code.new ≡ code.old ++ p.listed_target_steps (meant names.now) (m.meant_of meaning.now) list.now site) }
{
    match meaning {
        Meaning::Array(_, array) => {
            add(code, Step::Open)?;
            let next = push_values(alloc, code, names, site, list)?;
            add(code, Step::Locate(copy_array(alloc, array)?))?;
            Ok(next)
        }
        Meaning::Constant(_)
        | Meaning::Variable(_, _)
        | Meaning::Function
        | Meaning::Intrinsic(_)
        | Meaning::Unknown => {
            add(code, Step::Wrong)?;
            let mut unused = List::new(alloc);
            push_applied(alloc, &mut unused, names, site, meaning, list)
        }
    }
}

/// The targets of a READ.
#[tactic(auto, using(crate::proofs::Items::places))]
pub fn push_targets(
    alloc: Global,
    code: &mut Code,
    names: &Lookup,
    site: usize,
    list: &List<Expr>,
) -> Result<usize, AllocError>
    ensures next { IfOk result (λ next. next ≡ site + p.site_total (meant names.now) list.now) }
    ensures steps { OnOk result (code.new ≡ code.old ++ p.targets_steps (meant names.now) list.now site) }
{
    let mut next = site;
    for e in list.as_slice() {
        next = push_target(alloc, code, names, next, e)?;
        add(code, Step::TakeIn)?;
    }
    Ok(next)
}

// A literal of PRINT, or a value.
#[tactic(auto, using(crate::proofs::Items::items))]
fn push_item(
    alloc: Global,
    code: &mut Code,
    names: &Lookup,
    site: usize,
    e: &Expr,
) -> Result<usize, AllocError>
    ensures next { IfOk result (λ next. next ≡ site + p.site_count (meant names.now) e.now) }
    ensures steps { OnOk result (code.new ≡ code.old ++ p.item_steps (meant names.now) e.now site) }
{
    match e {
        Expr::Text(bytes) => {
            add(code, Step::Show(List::from_slice(alloc, bytes.as_slice())?))?;
            Ok(site)
        }
        Expr::Int(_)
        | Expr::Truth(_)
        | Expr::Scalar(_)
        | Expr::Apply(_, _)
        | Expr::Paren(_)
        | Expr::Neg(_)
        | Expr::Plus(_)
        | Expr::Not(_)
        | Expr::Binary(_, _, _) => push_value(alloc, code, names, site, e),
    }
}

/// The items of a PRINT.
#[tactic(auto, using(crate::proofs::Items::items))]
pub fn push_items(
    alloc: Global,
    code: &mut Code,
    names: &Lookup,
    site: usize,
    list: &List<Expr>,
) -> Result<usize, AllocError>
    ensures next { IfOk result (λ next. next ≡ site + p.site_total (meant names.now) list.now) }
    ensures steps { OnOk result (code.new ≡ code.old ++ p.items_steps (meant names.now) list.now site) }
{
    let mut next = site;
    for e in list.as_slice() {
        next = push_item(alloc, code, names, next, e)?;
    }
    Ok(next)
}

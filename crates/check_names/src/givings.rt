//! What the statements of a unit give to names. Each function puts what a part gives behind what was found before it.
ghost use Rattle.std.specs.Prelude.{◌≡◌, ◌++◌, ◌∷◌, [], map, flat_map, IfOk, OnOk};
ghost use Rattle.f77_tree.specs.declared.expr.Expr.TheViews.{out-Expr};
ghost use Rattle.f77_tree.specs.declared.form.Form.TheViews.{out-Form};
ghost use Rattle.f77_names.specs.Roles as r;
ghost use Rattle.check_names.specs.Givings as g;

use super::attribute::Attribute;
use f77_names::{Attributes, Manner, Occurrence, intrinsic_of, is_function};
use f77_tree::{DataConst, Declarator, Expr, Form, List, Name, TypeWord};
use std::alloc::{AllocError, Global};

/// A name, or a letter of IMPLICIT as a name of one, with what it is given.
#[derive(Drop)]
pub struct Giving {
    pub name: Name,
    pub attribute: Attribute,
}

type Found = List<Giving>;

fn push_name(
    alloc: Global,
    found: &mut Found,
    attribute: Attribute,
    name: &Name,
) -> Result<(), AllocError>
    ensures { OnOk result (found.new ≡ found.old ++ g.gives attribute name.now ∷ []) }
{
    found.push(Giving {
        name: name.copy(alloc)?,
        attribute,
    })
}

fn push_letter(alloc: Global, found: &mut Found, letter: u8) -> Result<(), AllocError>
    ensures { OnOk result (found.new ≡ found.old ++ g.gives_letter letter ∷ []) }
{
    let mut bytes = List::new(alloc);
    bytes.push(letter)?;
    found.push(Giving {
        name: Name::from_list(bytes),
        attribute: Attribute::Letter,
    })
}

fn push_range(alloc: Global, found: &mut Found, range: &(u8, u8)) -> Result<(), AllocError>
    ensures { OnOk result (found.new ≡ found.old ++ g.in_range range.now) }
{
    let end = range.1 as usize + 1;
    for letter in range.0 as usize..end {
        push_letter(alloc, found, letter as u8)?;
    }
    Ok(())
}

#[tactic(auto, using(crate::proofs::Joined::joined))]
fn push_group(
    alloc: Global,
    found: &mut Found,
    group: &(TypeWord, List<(u8, u8)>),
) -> Result<(), AllocError>
    ensures { OnOk result (found.new ≡ found.old ++ g.in_group group.now) }
{
    for range in group.1.as_slice() {
        push_range(alloc, found, range)?;
    }
    Ok(())
}

#[tactic(auto, using(crate::proofs::Joined::joined))]
fn push_groups(
    alloc: Global,
    found: &mut Found,
    groups: &List<(TypeWord, List<(u8, u8)>)>,
) -> Result<(), AllocError>
    ensures { OnOk result (found.new ≡ found.old ++ flat_map g.in_group groups.now) }
{
    for group in groups.as_slice() {
        push_group(alloc, found, group)?;
    }
    Ok(())
}

#[tactic(auto, using(crate::proofs::Joined::joined))]
fn push_declared(
    alloc: Global,
    found: &mut Found,
    attribute: Attribute,
    all: &List<Declarator>,
) -> Result<(), AllocError>
    ensures { OnOk result (found.new ≡ found.old ++ map (g.declared attribute) all.now) }
{
    for declarator in all.as_slice() {
        push_name(alloc, found, attribute, &declarator.name)?;
    }
    Ok(())
}

#[tactic(auto, using(crate::proofs::Joined::joined))]
fn push_blocks(
    alloc: Global,
    found: &mut Found,
    blocks: &List<(Name, List<Declarator>)>,
) -> Result<(), AllocError>
    ensures { OnOk result (found.new ≡ found.old ++ flat_map g.in_block blocks.now) }
{
    for block in blocks.as_slice() {
        push_declared(alloc, found, Attribute::Common, &block.1)?;
    }
    Ok(())
}

fn push_item(alloc: Global, found: &mut Found, item: &Expr) -> Result<(), AllocError>
    ensures { OnOk result (found.new ≡ found.old ++ g.of_item item.now) }
{
    match item {
        Expr::Scalar(name) | Expr::Apply(name, _) => push_name(alloc, found, Attribute::Item, name),
        _ => Ok(()),
    }
}

#[tactic(auto, using(crate::proofs::Joined::joined))]
fn push_items(alloc: Global, found: &mut Found, items: &List<Expr>) -> Result<(), AllocError>
    ensures { OnOk result (found.new ≡ found.old ++ flat_map g.of_item items.now) }
{
    for item in items.as_slice() {
        push_item(alloc, found, item)?;
    }
    Ok(())
}

#[tactic(auto, using(crate::proofs::Joined::joined))]
fn push_runs(
    alloc: Global,
    found: &mut Found,
    runs: &List<(List<Expr>, List<DataConst>)>,
) -> Result<(), AllocError>
    ensures { OnOk result (found.new ≡ found.old ++ flat_map g.in_run runs.now) }
{
    for run in runs.as_slice() {
        push_items(alloc, found, &run.0)?;
    }
    Ok(())
}

fn push_word(
    alloc: Global,
    found: &mut Found,
    word: Option<TypeWord>,
    name: &Name,
) -> Result<(), AllocError>
    ensures { OnOk result (found.new ≡ found.old ++ g.of_word word name.now) }
{
    match word {
        Some(_) => push_name(alloc, found, Attribute::Typed, name),
        None => Ok(()),
    }
}

/// The types and places that a form gives.
pub fn push_form(alloc: Global, found: &mut Found, form: &Form) -> Result<(), AllocError>
    ensures { OnOk result (found.new ≡ found.old ++ g.by_form (out-Form form.now)) }
{
    match form {
        Form::Head(_, word, name, _) => push_word(alloc, found, *word, name),
        Form::Implicit(groups) => push_groups(alloc, found, groups),
        Form::Typed(_, all) => push_declared(alloc, found, Attribute::Typed, all),
        Form::Common(blocks) => push_blocks(alloc, found, blocks),
        Form::DataRuns(runs) => push_runs(alloc, found, runs),
        _ => Ok(()),
    }
}

fn by_intrinsic(name: &Name) -> Option<Attribute>
    ensures { result ≡ g.by_intrinsic name.now }
{
    if intrinsic_of(name).is_some() {
        Some(Attribute::Intrinsic)
    } else {
        None
    }
}

fn is_applied(a: &Attributes, name: &Name) -> bool
    ensures { result ≡ r.is_applied a.now name.now }
{
    a.listed.contains(name) & !a.arrays.contains(name) & !a.dummies.contains(name)
}

fn by_list(a: &Attributes, name: &Name) -> Option<Attribute>
    ensures { result ≡ g.by_list a.now name.now }
{
    if is_function(a, name) {
        return Some(Attribute::Function);
    }
    if is_applied(a, name) {
        Some(Attribute::Intrinsic)
    } else {
        None
    }
}

fn by_manner(a: &Attributes, manner: Manner, name: &Name) -> Option<Attribute>
    ensures { result ≡ g.by_manner a.now manner name.now }
{
    match manner {
        Manner::ResultName => Some(Attribute::ResultVariable),
        Manner::Dummy => Some(Attribute::Dummy),
        Manner::Dimensioned => Some(Attribute::Array),
        Manner::Defined => Some(Attribute::Constant),
        Manner::External => Some(Attribute::Procedure),
        Manner::Intrinsic => by_intrinsic(name),
        Manner::Called => Some(Attribute::Subroutine),
        Manner::Listed => by_list(a, name),
        Manner::Plain => None,
    }
}

fn push_occurrence(
    alloc: Global,
    a: &Attributes,
    found: &mut Found,
    o: &Occurrence,
) -> Result<(), AllocError>
    ensures { OnOk result (found.new ≡ found.old ++ g.by_occurrence a.now o.now) }
{
    match by_manner(a, o.manner, &o.name) {
        Some(attribute) => push_name(alloc, found, attribute, &o.name),
        None => Ok(()),
    }
}

/// The roles that names get by how they occur.
#[tactic(auto, using(crate::proofs::Joined::joined))]
pub fn push_occurrences(
    alloc: Global,
    a: &Attributes,
    found: &mut Found,
    all: &List<Occurrence>,
) -> Result<(), AllocError>
    ensures { OnOk result (found.new ≡ found.old ++ flat_map (g.by_occurrence a.now) all.now) }
{
    for occurrence in all.as_slice() {
        push_occurrence(alloc, a, found, occurrence)?;
    }
    Ok(())
}

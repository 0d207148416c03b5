//! The local cells that SAVE and DATA keep from one call to the next.
ghost use Rattle.std.specs.Prelude.{◌≡◌, ◌++◌, ◌||◌, fold, map, IfOk, OnOk};
ghost use Rattle.std.specs.List.{list_any};
ghost use Rattle.f77_tree.specs.declared.expr.Expr.{out-Expr};
ghost use Rattle.f77_tree.specs.declared.form.Form.{out-Form};
ghost use Rattle.f77_values.specs.Tables as n;
ghost use Rattle.f77_semantics.specs.Data as d;
ghost use Rattle.interp_data.specs.Cells as c;

use f77_semantics::Kept;
use f77_store::{Area, Slot};
use f77_tree::{DataConst, Expr, Form, List, Name, Stmt};
use f77_values::Names as NameSet;
use std::alloc::{AllocError, Global};

// SAVE without names keeps all.
#[tactic(auto, using(crate::proofs::Keeping::keeping))]
fn keeps_all(statement: &Stmt) -> bool
    ensures { result ≡ d.keeps_all (out-Form statement.now.form) }
{
    match &statement.form {
        Form::Save(names, blocks) => (names.len() == 0) & (blocks.len() == 0),
        _ => false,
    }
}

fn all_kept(statements: &List<Stmt>) -> bool
    ensures { result ≡ list_any (λ s. d.keeps_all (out-Form s.form)) statements.now }
{
    statements
        .as_slice()
        .iter()
        .any(|statement| keeps_all(statement))
}

fn keep_names(alloc: Global, found: &mut NameSet, names: &List<Name>) -> Result<(), AllocError>
    ensures { OnOk result (found.new ≡ fold n.with_name found.old names.now) }
{
    for name in names.as_slice() {
        found.insert(name.copy(alloc)?)?;
    }
    Ok(())
}

#[tactic(auto, using(crate::proofs::Keeping::keeping))]
fn keep_item(alloc: Global, found: &mut NameSet, item: &Expr) -> Result<(), AllocError>
    ensures { OnOk result (found.new ≡ fold n.with_name found.old (d.item_names (out-Expr item.now))) }
{
    match item {
        Expr::Scalar(name) | Expr::Apply(name, _) => found.insert(name.copy(alloc)?),
        _ => Ok(()),
    }
}

#[tactic(auto, using(crate::proofs::Keeping::keeping))]
fn keep_items(alloc: Global, found: &mut NameSet, items: &List<Expr>) -> Result<(), AllocError>
    ensures { OnOk result (found.new ≡ fold n.with_name found.old (c.in_items items.now)) }
{
    for item in items.as_slice() {
        keep_item(alloc, found, item)?;
    }
    Ok(())
}

#[tactic(auto, using(crate::proofs::Keeping::keeping))]
fn keep_runs(
    alloc: Global,
    found: &mut NameSet,
    runs: &List<(List<Expr>, List<DataConst>)>,
) -> Result<(), AllocError>
    ensures { OnOk result (found.new ≡ fold n.with_name found.old (c.in_runs runs.now)) }
{
    for run in runs.as_slice() {
        keep_items(alloc, found, &run.0)?;
    }
    Ok(())
}

fn keep_form(alloc: Global, found: &mut NameSet, statement: &Stmt) -> Result<(), AllocError>
    ensures { OnOk result (found.new ≡ fold n.with_name found.old (d.kept_names (out-Form statement.now.form))) }
{
    match &statement.form {
        Form::Save(names, _) => keep_names(alloc, found, names),
        Form::DataRuns(runs) => keep_runs(alloc, found, runs),
        _ => Ok(()),
    }
}

#[tactic(auto, using(crate::proofs::Keeping::keeping))]
fn kept_names(alloc: Global, statements: &List<Stmt>) -> Result<NameSet, AllocError>
    ensures { IfOk result (λ found. found ≡ n.distinct (c.names_kept statements.now)) }
{
    let mut found = NameSet::new(alloc);
    for statement in statements.as_slice() {
        keep_form(alloc, &mut found, statement)?;
    }
    Ok(found)
}

fn is_own(area: &Area) -> bool
    ensures { result ≡ d.is_own area.now }
{
    match area {
        Area::Local => true,
        _ => false,
    }
}

#[tactic(auto, using(crate::proofs::Keeping::keeping))]
fn push_kept(
    found: &mut List<Kept>,
    all: bool,
    names: &NameSet,
    slot: &Slot,
) -> Result<(), AllocError>
    ensures { OnOk result (found.new ≡ found.old ++ c.kept_slot (λ name. all || n.is_among names.now name) slot.now) }
{
    if is_own(&slot.area) & (all | names.contains(&slot.name)) {
        return found.push(Kept {
            from: slot.from,
            length: slot.size,
        });
    }
    Ok(())
}

#[tactic(auto, using(crate::proofs::Keeping::keeping))]
fn kept_slots(
    alloc: Global,
    all: bool,
    names: &NameSet,
    slots: &List<Slot>,
) -> Result<List<Kept>, AllocError>
    ensures { IfOk result (λ kept. kept ≡ c.kept_slots (λ name. all || n.is_among names.now name) slots.now) }
{
    let mut found = List::new(alloc);
    for slot in slots.as_slice() {
        push_kept(&mut found, all, names, slot)?;
    }
    Ok(found)
}

/// The local units of names in SAVE or DATA. Of an array they are all, also where DATA gives one element.
pub fn kept_of(
    alloc: Global,
    statements: &List<Stmt>,
    slots: &List<Slot>,
) -> Result<List<Kept>, AllocError>
    ensures { IfOk result (λ kept. kept ≡ d.kept statements.now slots.now) }
{
    let names = kept_names(alloc, statements)?;
    kept_slots(alloc, all_kept(statements), &names, slots)
}

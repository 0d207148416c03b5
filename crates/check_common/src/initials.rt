//! What the units of a program initialise in COMMON.
ghost use Rattle.std.specs.Prelude.{◌≡◌, [], ◌++◌, flat_map, IfOk, OnOk};
ghost use Rattle.f77_tree.specs.declared.form.Form.TheViews.{out-Form};
ghost use Rattle.f77_names.specs.Declarations as d;
ghost use Rattle.check_common.specs.Initials as i;

use super::runs::{Run, item_run};
use super::storage::{Storage, storage_of};
use f77_names::{Declaration, declarations_of};
use f77_store::commons_of;
use f77_tree::{DataConst, Expr, Form, List, Stmt, Unit, Value};
use f77_values::{Table, define_in};
use std::alloc::{AllocError, Global};

/// Storage units of a COMMON block that a statement of DATA initialises, with its line and the place of its unit in the list.
#[derive(Drop)]
pub struct Initial {
    pub unit: usize,
    pub line: u32,
    pub run: Run,
}

fn push_item(
    alloc: Global,
    found: &mut Vec<Initial>,
    storage: &Storage,
    named: &Table<Value>,
    unit: usize,
    line: u32,
    item: &Expr,
) -> Result<(), AllocError>
    ensures { OnOk result (found.new.items ≡ found.old.items ++ i.item_initials storage.now unit line named.now item.now) }
{
    match item_run(alloc, storage, named, item)? {
        Some(run) => {
            found.push(Initial { unit, line, run })?;
            Ok(())
        }
        None => Ok(()),
    }
}

#[tactic(auto, using(crate::proofs::Gathering::joined))]
fn push_items(
    alloc: Global,
    found: &mut Vec<Initial>,
    storage: &Storage,
    named: &Table<Value>,
    unit: usize,
    line: u32,
    items: &List<Expr>,
) -> Result<(), AllocError>
    ensures { OnOk result (found.new.items ≡ found.old.items ++ flat_map (i.item_initials storage.now unit line named.now) items.now) }
{
    for item in items.as_slice() {
        push_item(alloc, found, storage, named, unit, line, item)?;
    }
    Ok(())
}

#[tactic(auto, using(crate::proofs::Gathering::joined))]
fn push_lists(
    alloc: Global,
    found: &mut Vec<Initial>,
    storage: &Storage,
    named: &Table<Value>,
    unit: usize,
    line: u32,
    lists: &List<(List<Expr>, List<DataConst>)>,
) -> Result<(), AllocError>
    ensures { OnOk result (found.new.items ≡ found.old.items ++ flat_map (i.list_initials storage.now unit line named.now) lists.now) }
{
    for list in lists.as_slice() {
        push_items(alloc, found, storage, named, unit, line, &list.0)?;
    }
    Ok(())
}

#[tactic(auto, using(crate::proofs::Gathering::joined))]
fn push_statement(
    alloc: Global,
    found: &mut Vec<Initial>,
    storage: &Storage,
    named: &Table<Value>,
    unit: usize,
    statement: &Stmt,
) -> Result<(), AllocError>
    ensures { OnOk result (found.new.items ≡ found.old.items ++ i.form_initials storage.now unit statement.now.line named.now (out-Form statement.now.form)) }
{
    let line = statement.line;
    match &statement.form {
        Form::DataRuns(lists) => push_lists(alloc, found, storage, named, unit, line, lists),
        _ => Ok(()),
    }
}

#[tactic(auto, using(crate::proofs::Gathering::joined))]
fn push_statements(
    alloc: Global,
    found: &mut Vec<Initial>,
    storage: &Storage,
    unit: usize,
    statements: &List<Stmt>,
) -> Result<(), AllocError>
    ensures { OnOk result (found.new.items ≡ found.old.items ++ i.statements_from storage.now unit [] statements.now) }
{
    let mut named = Table::new(alloc);
    for statement in statements.as_slice() {
        push_statement(alloc, found, storage, &named, unit, statement)?;
        define_in(alloc, &mut named, statement)?;
    }
    Ok(())
}

fn push_declared(
    alloc: Global,
    found: &mut Vec<Initial>,
    place: usize,
    unit: &Unit,
    declarations: &List<Declaration>,
) -> Result<(), AllocError>
    requires { declarations.now ≡ d.declarations unit.now.statements }
    ensures { OnOk result (found.new.items ≡ found.old.items ++ i.unit_initials place unit.now) }
{
    let members = commons_of(alloc, declarations)?;
    if members.is_empty() {
        return Ok(());
    }
    let storage = storage_of(alloc, unit, declarations, &members)?;
    push_statements(alloc, found, &storage, place, &unit.statements)
}

fn is_data(form: &Form) -> bool
    ensures { result ≡ i.is_data (out-Form form.now) }
{
    match form {
        Form::DataRuns(_) => true,
        _ => false,
    }
}

fn has_data(statements: &[Stmt]) -> bool
    ensures { result ≡ i.has_data statements.now }
{
    statements.iter().any(|s| is_data(&s.form))
}

/// A unit without DATA, and one without COMMON, adds nothing.
fn push_unit(
    alloc: Global,
    found: &mut Vec<Initial>,
    place: usize,
    unit: &Unit,
) -> Result<(), AllocError>
    ensures { OnOk result (found.new.items ≡ found.old.items ++ i.unit_initials place unit.now) }
{
    if !has_data(unit.statements.as_slice()) {
        return Ok(());
    }
    let declarations = declarations_of(alloc, &unit.statements)?;
    push_declared(alloc, found, place, unit, &declarations)
}

/// What these units initialise in COMMON, in their order.
#[tactic(auto, using(crate::proofs::Gathering::joined))]
pub fn initials_of(alloc: Global, units: &[Unit]) -> Result<Vec<Initial>, AllocError>
    ensures { IfOk result (λ all. all.items ≡ i.initials units.now) }
{
    let mut found = Vec::new(alloc);
    for (place, unit) in units.iter().enumerate() {
        push_unit(alloc, &mut found, place, unit)?;
    }
    Ok(found)
}

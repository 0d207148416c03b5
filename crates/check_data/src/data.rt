//! Statements of DATA that aren't right by themselves.
ghost use Rattle.std.specs.Prelude.{◌≡◌, IfOk};
ghost use Rattle.std.specs.List.{list_any};
ghost use Rattle.check_data.specs.DataFaults as m;
ghost use Rattle.check_data.specs.DataItems as i;

use super::data_items::{item_misplaced, item_outside, wrong_constant};
use super::measures::Measured;
use super::runs::{constant_runs, differ, item_runs};
use check_constants::Defined;
use f77_names::Facts;
use f77_store::Place;
use f77_tree::{DataConst, Expr, Form, List, Stmt, UnitKind, Value};
use f77_values::Table;
use std::alloc::{AllocError, Global};

fn wrong_item(
    kind: UnitKind,
    commons: &Table<Place>,
    measures: &Table<Measured>,
    defined: &Defined,
    item: &Expr,
) -> bool
    ensures { result ≡ m.wrong_item kind commons.now measures.now defined.now item.now }
{
    item_misplaced(kind, commons, item) | item_outside(&defined.values, measures, item)
}

fn any_item(
    kind: UnitKind,
    commons: &Table<Place>,
    measures: &Table<Measured>,
    defined: &Defined,
    items: &List<Expr>,
) -> bool
    ensures { result ≡ list_any (m.wrong_item kind commons.now measures.now defined.now) items.now }
{
    items
        .as_slice()
        .iter()
        .any(|e| wrong_item(kind, commons, measures, defined, e))
}

fn any_constant(defined: &Defined, list: &List<DataConst>) -> bool
    ensures { result ≡ list_any (i.wrong_constant defined.now) list.now }
{
    list.as_slice().iter().any(|c| wrong_constant(defined, c))
}

fn lists_differ(
    alloc: Global,
    facts: &Facts,
    measures: &Table<Measured>,
    constants: &Table<Value>,
    list: &(List<Expr>, List<DataConst>),
) -> Result<bool, AllocError>
    ensures { IfOk result (λ differ. differ ≡ m.lists_differ facts.now measures.now constants.now list.now) }
{
    let items = item_runs(alloc, facts, measures, &list.0)?;
    let given = constant_runs(alloc, facts, constants, &list.1)?;
    Ok(differ(&items, &given))
}

fn wrong_list(
    alloc: Global,
    kind: UnitKind,
    facts: &Facts,
    commons: &Table<Place>,
    measures: &Table<Measured>,
    defined: &Defined,
    list: &(List<Expr>, List<DataConst>),
) -> Result<bool, AllocError>
    ensures { IfOk result (λ wrong. wrong ≡ m.wrong_list kind facts.now commons.now measures.now defined.now list.now) }
{
    let by_items = any_item(kind, commons, measures, defined, &list.0);
    let by_constants = any_constant(defined, &list.1);
    let by_runs = lists_differ(alloc, facts, measures, &defined.values, list)?;
    Ok(by_items | (by_constants | by_runs))
}

#[tactic(auto, using(crate::proofs::Layers::tests))]
fn wrong_lists(
    alloc: Global,
    kind: UnitKind,
    facts: &Facts,
    commons: &Table<Place>,
    measures: &Table<Measured>,
    defined: &Defined,
    lists: &List<(List<Expr>, List<DataConst>)>,
) -> Result<bool, AllocError>
    ensures { IfOk result (λ wrong. wrong ≡ list_any (m.wrong_list kind facts.now commons.now measures.now defined.now) lists.now) }
{
    for list in lists.as_slice() {
        if wrong_list(alloc, kind, facts, commons, measures, defined, list)? {
            return Ok(true);
        }
    }
    Ok(false)
}

/// Whether a statement of DATA isn't right by itself.
pub fn statement_wrong(
    alloc: Global,
    kind: UnitKind,
    facts: &Facts,
    commons: &Table<Place>,
    measures: &Table<Measured>,
    defined: &Defined,
    statement: &Stmt,
) -> Result<bool, AllocError>
    ensures { IfOk result (λ wrong. wrong ≡ m.statement_wrong kind facts.now commons.now measures.now defined.now statement.now) }
{
    match &statement.form {
        Form::DataRuns(lists) => {
            wrong_lists(alloc, kind, facts, commons, measures, defined, lists)
        }
        _ => Ok(false),
    }
}

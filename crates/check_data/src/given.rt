//! What DATA gives values to.
ghost use Rattle.std.specs.Prelude.{◌≡◌, [], ◌++◌, List, flat_map, IfOk, OnOk, is_some};
ghost use Rattle.f77_tree.specs.declared.expr.Expr.{out-Expr};
ghost use Rattle.f77_tree.specs.declared.form.Form.TheViews.{out-Form};
ghost use Rattle.f77_values.specs.Tables.{what};
ghost use Rattle.check_data.specs.DataTwice as t;
ghost use Rattle.check_data.specs.Seen as s;

use super::elements::{Elements, Subscripts};
use f77_tree::{DataConst, Expr, Form, List as Items, Name, Value};
use f77_values::{Table, evaluate, whole};
use std::alloc::{AllocError, Global};

/// All of a name, or its element with these subscripts.
#[derive(Drop)]
pub struct Given {
    pub name: Name,
    pub subscripts: Option<Subscripts>,
}

/// What was given so far: of each name whether all of it was, and the elements.
#[derive(Drop)]
pub struct Seen {
    pub names: Table<bool>,
    pub elements: Elements,
}

fn subscripts(
    alloc: Global,
    constants: &Table<Value>,
    list: &Items<Expr>,
) -> Result<Option<Subscripts>, AllocError>
    ensures { IfOk result (λ found. found ≡ t.subscripts constants.now list.now) }
{
    let mut values = Items::new(alloc);
    for e in list.as_slice() {
        match whole(evaluate(constants, e)) {
            Some(n) => values.push(n)?,
            None => return Ok(None),
        }
    }
    Ok(Some(Subscripts::from_list(values)))
}

fn push_element(
    alloc: Global,
    constants: &Table<Value>,
    found: &mut Items<Given>,
    name: &Name,
    list: &Items<Expr>,
) -> Result<(), AllocError>
    ensures { OnOk result (found.new ≡ found.old ++ t.element name.now (t.subscripts constants.now list.now)) }
{
    match subscripts(alloc, constants, list)? {
        Some(list) => {
            let name = name.copy(alloc)?;
            found.push(Given {
                name,
                subscripts: Some(list),
            })
        }
        None => Ok(()),
    }
}

#[tactic(auto, using(crate::proofs::Givings::givings))]
fn push_item(
    alloc: Global,
    constants: &Table<Value>,
    found: &mut Items<Given>,
    item: &Expr,
) -> Result<(), AllocError>
    ensures { OnOk result (found.new ≡ found.old ++ t.item_gives constants.now (out-Expr item.now)) }
{
    match item {
        Expr::Scalar(name) => {
            let name = name.copy(alloc)?;
            found.push(Given {
                name,
                subscripts: None,
            })
        }
        Expr::Apply(name, list) => push_element(alloc, constants, found, name, list),
        _ => Ok(()),
    }
}

#[tactic(auto, using(crate::proofs::Givings::givings))]
fn push_items(
    alloc: Global,
    constants: &Table<Value>,
    found: &mut Items<Given>,
    items: &Items<Expr>,
) -> Result<(), AllocError>
    ensures { OnOk result (found.new ≡ found.old ++ t.items_give constants.now items.now) }
{
    for item in items.as_slice() {
        push_item(alloc, constants, found, item)?;
    }
    Ok(())
}

#[tactic(auto, using(crate::proofs::Givings::givings))]
fn push_lists(
    alloc: Global,
    constants: &Table<Value>,
    found: &mut Items<Given>,
    lists: &Items<(Items<Expr>, Items<DataConst>)>,
) -> Result<(), AllocError>
    ensures { OnOk result (found.new ≡ found.old ++ flat_map (t.list_gives constants.now) lists.now) }
{
    for list in lists.as_slice() {
        push_items(alloc, constants, found, &list.0)?;
    }
    Ok(())
}

/// What a statement gives values to, in the order of its text.
#[tactic(auto, using(crate::proofs::Givings::givings))]
pub fn gives_of(
    alloc: Global,
    constants: &Table<Value>,
    form: &Form,
) -> Result<Items<Given>, AllocError>
    ensures { IfOk result (λ all. all ≡ t.form_gives constants.now (out-Form form.now)) }
{
    let mut found = Items::new(alloc);
    if let Form::DataRuns(lists) = form {
        push_lists(alloc, constants, &mut found, lists)?;
    }
    Ok(found)
}

impl Seen {
    /// Nothing was given.
    #[tactic(auto, using(crate::proofs::Givings::nothing_seen))]
    pub fn new(alloc: Global) -> Seen
        ensures { s.Tells result [] }
    {
        Seen {
            names: Table::new(alloc),
            elements: Elements::new(alloc),
        }
    }
}

fn is_whole(names: &Table<bool>, name: &Name) -> bool
    ensures { result ≡ s.is_whole (what names.now name.now) }
{
    match names.get(name) {
        Some(all) => *all,
        None => false,
    }
}

fn meet_name(seen: &mut Seen, name: Name) -> Result<bool, AllocError>
    ensures met { IfOk result (λ met. met ≡ s.found seen.old (t.all_of name)) }
    ensures adds { OnOk result (s.Adds seen.old (t.all_of name) seen.new) }
{
    let met = seen.names.get(&name).is_some();
    seen.names.insert(name, true)?;
    Ok(met)
}

fn meet_element(
    alloc: Global,
    seen: &mut Seen,
    name: &Name,
    list: Subscripts,
) -> Result<bool, AllocError>
    ensures met { IfOk result (λ met. met ≡ s.found seen.old (t.element_of name.now list)) }
    ensures adds { OnOk result (s.Adds seen.old (t.element_of name.now list) seen.new) }
{
    let all = is_whole(&seen.names, name);
    let element = (name.copy(alloc)?, list);
    let met = all | seen.elements.contains(&element);
    seen.elements.insert(element)?;
    seen.names.insert(name.copy(alloc)?, all)?;
    Ok(met)
}

fn meet(alloc: Global, seen: &mut Seen, g: &Given) -> Result<bool, AllocError>
    ensures met { IfOk result (λ met. met ≡ s.found seen.old g.now) }
    ensures adds { OnOk result (s.Adds seen.old g.now seen.new) }
{
    match &g.subscripts {
        Some(list) => meet_element(alloc, seen, &g.name, list.copy(alloc)?),
        None => meet_name(seen, g.name.copy(alloc)?),
    }
}

/// Whether one of these has a unit of those that the tables tell of, or of one before it here. The tables then tell of them too.
pub fn meet_all(alloc: Global, seen: &mut Seen, all: &Items<Given>) -> Result<bool, AllocError>
    ensures twice { (before : List t.Item) → s.Tells seen.old before → IfOk result (λ twice. twice ≡ t.given_twice before all.now) }
    ensures tells { (before : List t.Item) → s.Tells seen.old before → OnOk result (s.Tells seen.new (before ++ all.now)) }
{
    let mut twice = false;
    for g in all.as_slice() {
        let met = meet(alloc, seen, g)?;
        twice = twice | met;
    }
    Ok(twice)
}

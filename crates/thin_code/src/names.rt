//! The variables of a program, and where they are stored.
ghost use Rattle.std.specs.Prelude.{◌≡◌, ℕ, ◌+◌, ◌*◌, ◌^◌, ◌<◌, [], length, fold, flat_map, IfOk, OnOk};
ghost use Rattle.indexmap.specs.IndexSet.{index_set_len};
ghost use Rattle.thin_code.specs.Layout.{term_names, item_names, statement_names, with_name, names_of, offset_of};
ghost use Rattle.thin_code.specs.Seen.{address_in};

use super::area::Area;
use f77_tree::Name;
use indexmap::IndexSet;
use std::alloc::{AllocError, Global};
use thin_form::{Addend, Item, Statement, Term};

/// The address of a variable's storage unit.
pub fn address_of(area: &Area, name: &Name) -> u64
    ensures { result ≡ address_in area.now name.now }
{
    area.address + 8 * offset_of(&area.names, name) as u64
}

// The number of storage units before a variable's.
fn offset_of(names: &IndexSet<Name>, name: &Name) -> usize
    ensures offset { result ≡ offset_of names.now.keys name.now }
    ensures within { result < index_set_len names.now + 1 }
{
    match names.get_index_of(name) {
        Some(index) => index,
        None => names.len(),
    }
}

/// The variables of a program.
pub fn names_of(alloc: Global, body: &[Statement]) -> Result<IndexSet<Name>, AllocError>
    ensures { IfOk result (λ names. names.keys ≡ names_of body.now) }
{
    let mut names = IndexSet::new(alloc);
    for statement in body {
        add_statement(alloc, &mut names, statement)?;
    }
    Ok(names)
}

fn add_statement(
    alloc: Global,
    names: &mut IndexSet<Name>,
    statement: &Statement,
) -> Result<(), AllocError>
    ensures { OnOk result (names.new.keys ≡ fold with_name names.old.keys (statement_names statement.now)) }
{
    match statement {
        Statement::Assign(target, first, more) => {
            add_name(alloc, names, target)?;
            add_term(alloc, names, first)?;
            add_addends(alloc, names, more.as_slice())
        }
        Statement::Print(items) => add_items(alloc, names, items.as_slice()),
        Statement::End => Ok(()),
    }
}

fn add_addends(alloc: Global, names: &mut IndexSet<Name>, more: &[Addend]) -> Result<(), AllocError>
    ensures { OnOk result (names.new.keys ≡ fold with_name names.old.keys (flat_map (λ a. term_names a.term) more.now)) }
{
    for addend in more {
        add_term(alloc, names, &addend.term)?;
    }
    Ok(())
}

fn add_items(alloc: Global, names: &mut IndexSet<Name>, items: &[Item]) -> Result<(), AllocError>
    ensures { OnOk result (names.new.keys ≡ fold with_name names.old.keys (flat_map item_names items.now)) }
{
    for item in items {
        add_item(alloc, names, item)?;
    }
    Ok(())
}

fn add_item(alloc: Global, names: &mut IndexSet<Name>, item: &Item) -> Result<(), AllocError>
    ensures { OnOk result (names.new.keys ≡ fold with_name names.old.keys (item_names item.now)) }
{
    match item {
        Item::Value(term) => add_term(alloc, names, term),
        Item::Text(_) => Ok(()),
    }
}

fn add_term(alloc: Global, names: &mut IndexSet<Name>, term: &Term) -> Result<(), AllocError>
    ensures { OnOk result (names.new.keys ≡ fold with_name names.old.keys (term_names term.now)) }
{
    match term {
        Term::Variable(name) => add_name(alloc, names, name),
        Term::Integer(_) => Ok(()),
    }
}

fn add_name(alloc: Global, names: &mut IndexSet<Name>, name: &Name) -> Result<(), AllocError>
    ensures { OnOk result (names.new.keys ≡ with_name names.old.keys name.now) }
{
    names.insert(name.copy(alloc)?)?;
    Ok(())
}

//! Names that are given what excludes what they were given before.
ghost use Rattle.std.specs.Prelude.{◌≡◌, ◌++◌, [], ◌||◌, fold, map, flat_map, length, IfOk, OnOk};
ghost use Rattle.std.specs.List.{range_with_len};
ghost use Rattle.f77_values.specs.Tables as n;
ghost use Rattle.check_names.specs.Exclusions as x;
ghost use Rattle.check_names.specs.Conflicts as c;
ghost use Rattle.check_names.specs.Tables as t;

use super::attribute::{Given, conflicts, nothing, with_attribute};
use super::givings::{Giving, push_form, push_occurrences};
use super::texts::occurrences_in;
use f77_names::Attributes;
use f77_tree::{List, Name, Stmt, Unit};
use f77_values::Table;
use std::alloc::{AllocError, Global};

fn given_to(table: &Table<Given>, name: &Name) -> Given
    ensures { result ≡ t.told_to name.now table.now }
{
    match table.get(name) {
        Some(given) => *given,
        None => nothing(),
    }
}

/// Notes what is given, and tells whether it conflicts with what was given before.
fn note(alloc: Global, table: &mut Table<Given>, g: &Giving) -> Result<bool, AllocError>
    ensures table { OnOk result (table.new ≡ t.noted table.old g.now) }
    ensures conflict { IfOk result (λ conflict. conflict ≡ t.conflicts_with table.old g.now) }
{
    let given = given_to(table, &g.name);
    table.insert(g.name.copy(alloc)?, with_attribute(given, g.attribute))?;
    Ok(conflicts(given, g.attribute))
}

/// Notes all that is given, and tells whether some of it conflicts with what was given before.
fn note_all(alloc: Global, table: &mut Table<Given>, all: &List<Giving>) -> Result<bool, AllocError>
    ensures table { OnOk result (table.new ≡ fold t.noted table.old all.now) }
    ensures conflict { IfOk result (λ conflict. conflict ≡ t.conflict_with table.old all.now) }
{
    let mut conflict = false;
    for giving in all.as_slice() {
        let here = note(alloc, table, giving)?;
        conflict = conflict | here;
    }
    Ok(conflict)
}

fn given_by(
    alloc: Global,
    a: &Attributes,
    unit: &Unit,
    is_first: bool,
    statement: &Stmt,
) -> Result<List<Giving>, AllocError>
    ensures { IfOk result (λ all. all ≡ c.given_by a.now unit.now is_first statement.now) }
{
    let mut found = List::new(alloc);
    push_form(alloc, &mut found, &statement.form)?;
    let all = occurrences_in(alloc, unit, is_first, statement)?;
    push_occurrences(alloc, a, &mut found, &all)?;
    Ok(found)
}

fn note_statement(
    alloc: Global,
    a: &Attributes,
    unit: &Unit,
    is_first: bool,
    table: &mut Table<Given>,
    statement: &Stmt,
) -> Result<bool, AllocError>
    ensures table { OnOk result (table.new ≡ fold t.noted table.old (c.given_by a.now unit.now is_first statement.now)) }
    ensures conflict { IfOk result (λ conflict. conflict ≡ t.conflict_with table.old (c.given_by a.now unit.now is_first statement.now)) }
{
    let given = given_by(alloc, a, unit, is_first, statement)?;
    note_all(alloc, table, &given)
}

/// For each statement whether it gives a name what conflicts with what the name was given before.
pub fn conflict_flags(alloc: Global, a: &Attributes, unit: &Unit) -> Result<List<bool>, AllocError>
    ensures { IfOk result (λ flags. flags ≡ map (c.conflicts_at a.now unit.now) (range_with_len 0 (length unit.now.statements))) }
{
    let mut table = Table::new(alloc);
    let mut flags = List::new(alloc);
    let mut is_first = true;
    for statement in unit.statements.as_slice() {
        flags.push(note_statement(alloc, a, unit, is_first, &mut table, statement)?)?;
        is_first = false;
    }
    Ok(flags)
}

//! Names with a type other than INTEGER and LOGICAL.
ghost use Rattle.std.specs.Prelude.{◌≡◌, fold, map, length, IfOk, OnOk};
ghost use Rattle.std.specs.List.{list_any, range_with_len};
ghost use Rattle.f77_values.specs.Tables as n;
ghost use Rattle.check_names.specs.Places as p;
ghost use Rattle.check_names.specs.Untyped as u;

use super::texts::occurrences_in;
use f77_names::{
    Attributes, Facts, Occurrence, is_function, is_intrinsic, name_word, storage_type,
};
use f77_tree::{List, Name, Stmt, Unit, UnitKind};
use f77_values::Names;
use std::alloc::{AllocError, Global};

fn is_function_kind(kind: UnitKind) -> bool
    ensures { result ≡ u.is_function_kind kind }
{
    match kind {
        UnitKind::Function => true,
        _ => false,
    }
}

fn is_result(unit: &Unit, name: &Name) -> bool
    ensures { result ≡ u.is_result unit.now name.now }
{
    is_function_kind(unit.kind) & (*name == unit.name)
}

fn is_variable(a: &Attributes, name: &Name) -> bool
    ensures { result ≡ u.is_variable a.now name.now }
{
    let elsewhere = a.called.contains(name) | a.external.contains(name);
    !elsewhere & (a.dummies.contains(name) | !is_intrinsic(a, name))
}

fn has_type(unit: &Unit, a: &Attributes, name: &Name) -> bool
    ensures { result ≡ u.has_type unit.now a.now name.now }
{
    let declared = a.arrays.contains(name) | a.constants.contains(name);
    declared | is_function(a, name) | is_result(unit, name) | is_variable(a, name)
}

fn lacks_type(unit: &Unit, facts: &Facts, name: &Name) -> bool
    ensures { result ≡ u.lacks_type unit.now facts.now name.now }
{
    let word = name_word(&facts.words, &facts.letters, name);
    has_type(unit, &facts.attributes, name) & storage_type(word).is_none()
}

fn is_new_untyped(unit: &Unit, facts: &Facts, seen: &Names, o: &Occurrence) -> bool
    ensures { result ≡ u.is_new_untyped unit.now facts.now seen.now o.now }
{
    !seen.contains(&o.name) && lacks_type(unit, facts, &o.name)
}

fn any_untyped(unit: &Unit, facts: &Facts, seen: &Names, all: &List<Occurrence>) -> bool
    ensures { result ≡ list_any (u.is_new_untyped unit.now facts.now seen.now) all.now }
{
    all.as_slice()
        .iter()
        .any(|o| is_new_untyped(unit, facts, seen, o))
}

fn see_all(alloc: Global, seen: &mut Names, all: &List<Occurrence>) -> Result<(), AllocError>
    ensures { OnOk result (seen.new ≡ fold n.with_name seen.old (u.names_in all.now)) }
{
    for occurrence in all.as_slice() {
        seen.insert(occurrence.name.copy(alloc)?)?;
    }
    Ok(())
}

fn see_statement(
    alloc: Global,
    unit: &Unit,
    facts: &Facts,
    is_first: bool,
    seen: &mut Names,
    statement: &Stmt,
) -> Result<bool, AllocError>
    ensures seen { OnOk result (seen.new ≡ fold n.with_name seen.old (u.names_in (p.in_text unit.now is_first statement.now))) }
    ensures untyped { IfOk result (λ untyped. untyped ≡ list_any (u.is_new_untyped unit.now facts.now seen.old) (p.in_text unit.now is_first statement.now)) }
{
    let all = occurrences_in(alloc, unit, is_first, statement)?;
    let untyped = any_untyped(unit, facts, seen, &all);
    see_all(alloc, seen, &all)?;
    Ok(untyped)
}

/// For each statement whether a name of another type appears first in it.
pub fn untyped_flags(alloc: Global, unit: &Unit, facts: &Facts) -> Result<List<bool>, AllocError>
    ensures { IfOk result (λ flags. flags ≡ map (u.untyped_at facts.now unit.now) (range_with_len 0 (length unit.now.statements))) }
{
    let mut seen = Names::new(alloc);
    let mut flags = List::new(alloc);
    let mut is_first = true;
    for statement in unit.statements.as_slice() {
        flags.push(see_statement(alloc, unit, facts, is_first, &mut seen, statement)?)?;
        is_first = false;
    }
    Ok(flags)
}

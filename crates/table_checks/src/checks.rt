//! The first faults of units and programs.
ghost use Rattle.std.specs.Prelude.{◌≡◌, IfOk};
ghost use Rattle.f77_names.specs.Roles as r;

use super::cards::units_of;
use check_jumps::jump_fault;
use check_names::name_fault;
use check_types::type_fault;
use f77_check::check_unit;
use f77_names::{Facts, declarations_of, facts_of, occurrences_of};
use f77_parse::{ends_by_end, parse_unit};
use f77_tree::{Refused, Unit};
use fault_marks::Mark;
use fixed_form::UnitText;
use rn_draft::accept;
use std::alloc::{AllocError, Global};
use table_rows::{put, put_mark};

fn facts(alloc: Global, unit: &Unit) -> Result<Facts, AllocError>
    ensures { IfOk result (λ f. f ≡ r.facts unit.now) }
{
    let all = occurrences_of(alloc, unit)?;
    let declarations = declarations_of(alloc, &unit.statements)?;
    facts_of(alloc, unit, &all, &declarations)
}

fn of_names(alloc: Global, unit: &Unit) -> Result<Option<Mark>, AllocError> {
    let facts = facts(alloc, unit)?;
    name_fault(alloc, unit, &facts)
}

fn of_types(alloc: Global, unit: &Unit) -> Result<Option<Mark>, AllocError> {
    let facts = facts(alloc, unit)?;
    type_fault(alloc, unit, &facts)
}

/// The first fault in how the unit uses names.
pub fn put_names_fault(alloc: Global, out: &mut Vec<u8>, unit: &Unit) -> Result<(), AllocError> {
    put_mark(alloc, out, &of_names(alloc, unit)?)
}

/// The first fault in types, subscripts and targets.
pub fn put_types_fault(alloc: Global, out: &mut Vec<u8>, unit: &Unit) -> Result<(), AllocError> {
    put_mark(alloc, out, &of_types(alloc, unit)?)
}

/// The first fault in labels, jumps and nesting.
pub fn put_jumps_fault(alloc: Global, out: &mut Vec<u8>, unit: &Unit) -> Result<(), AllocError> {
    if unit.statements.len() > 1000 {
        return put(out, "too long");
    }
    put_mark(alloc, out, &jump_fault(alloc, unit.statements.as_slice())?)
}

fn check(alloc: Global, unit: &UnitText) -> Result<(), Refused> {
    if ends_by_end(unit) {
        let tree = parse_unit(alloc, unit)?;
        check_unit(alloc, &tree)?;
    }
    Ok(())
}

/// The first of a unit's own faults, in its statements and then in its tree.
pub fn unit_checks(alloc: Global, out: &mut Vec<u8>, row: &[u8]) -> Result<(), Refused> {
    let units = units_of(alloc, row)?;
    for unit in units.as_slice() {
        check(alloc, unit)?;
    }
    put(out, "no fault")?;
    Ok(())
}

fn accepted(alloc: Global, row: &[u8]) -> Result<usize, Refused> {
    let units = units_of(alloc, row)?;
    let trees = accept(alloc, units.as_slice())?;
    Ok(trees.len())
}

/// The first fault of a program; `accepted` where it has none.
pub fn program_checks(alloc: Global, out: &mut Vec<u8>, row: &[u8]) -> Result<(), Refused> {
    let _ = accepted(alloc, row)?;
    put(out, "accepted")?;
    Ok(())
}

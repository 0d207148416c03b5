//! The first fault of a unit.
ghost use Rattle.std.specs.Prelude.{◌≡◌, IfOk, IfErr};
ghost use Rattle.f77_names.specs.Declarations.{declarations as declared};
ghost use Rattle.f77_names.specs.Roles.{facts as facts_in};
ghost use Rattle.fault_marks.specs.Earliest.{Earliest};
ghost use Rattle.check_jumps.specs.Faults.{JumpFaults};
ghost use Rattle.check_constants.specs.Faults.{in_commons};
ghost use Rattle.f77_check.specs.UnitFaults as u;

use check_constants::constant_fault;
use check_data::data_fault;
use check_jumps::jump_fault;
use check_names::name_fault;
use check_types::type_fault;
use f77_names::{Declaration, Facts, declarations_of, facts_of, occurrences_of};
use f77_store::{Place, commons_of, lay_out};
use f77_tree::{List, Refused, Stmt, Unit};
use f77_values::Table;
use fault_marks::{Mark, first_of, refusal};
use std::alloc::{AllocError, Global};

/// The first fault of labels, jumps and nesting. More statements than 32 bits count are more than a memory holds.
fn jumps(alloc: Global, statements: &[Stmt]) -> Result<Option<Mark>, AllocError>
    ensures { IfOk result (λ mark. Earliest (JumpFaults statements.now) mark) }
{
    if statements.len() > u32::MAX as usize {
        return Err(AllocError);
    }
    jump_fault(alloc, statements)
}

/// What a unit's text tells of its names.
fn facts_from(
    alloc: Global,
    unit: &Unit,
    declarations: &List<Declaration>,
) -> Result<Facts, AllocError>
    requires { declarations.now ≡ declared unit.now.statements }
    ensures { IfOk result (λ facts. facts ≡ facts_in unit.now) }
{
    let occurrences = occurrences_of(alloc, unit)?;
    let facts = facts_of(alloc, unit, &occurrences, declarations)?;
    Ok(facts)
}

/// The first fault of constants and DATA, by the places of the names in COMMON.
fn values_by(
    alloc: Global,
    unit: &Unit,
    facts: &Facts,
    commons: &Table<Place>,
) -> Result<Option<Mark>, AllocError>
    requires facts { facts.now ≡ facts_in unit.now }
    requires commons { commons.now ≡ in_commons unit.now }
    ensures { IfOk result (λ mark. Earliest (u.ValueFaults unit.now) mark) }
{
    let of_constants = constant_fault(alloc, unit, facts, commons)?;
    let of_data = data_fault(alloc, unit, facts, commons)?;
    Ok(first_of(of_constants, of_data))
}

/// The same, from the unit's declarations.
fn values(
    alloc: Global,
    unit: &Unit,
    facts: &Facts,
    declarations: &List<Declaration>,
) -> Result<Option<Mark>, AllocError>
    requires facts { facts.now ≡ facts_in unit.now }
    requires declarations { declarations.now ≡ declared unit.now.statements }
    ensures { IfOk result (λ mark. Earliest (u.ValueFaults unit.now) mark) }
{
    let members = commons_of(alloc, declarations)?;
    let areas = lay_out(alloc, &facts.shapes, &members)?;
    values_by(alloc, unit, facts, &areas.places)
}

/// The first fault that a statement of the unit shows, by what its text tells of its names.
fn mark_by(
    alloc: Global,
    unit: &Unit,
    facts: &Facts,
    declarations: &List<Declaration>,
) -> Result<Option<Mark>, AllocError>
    requires facts { facts.now ≡ facts_in unit.now }
    requires declarations { declarations.now ≡ declared unit.now.statements }
    ensures { IfOk result (λ mark. Earliest (u.UnitFaults unit.now) mark) }
{
    let of_names = name_fault(alloc, unit, facts)?;
    let of_jumps = jumps(alloc, unit.statements.as_slice())?;
    let of_types = type_fault(alloc, unit, facts)?;
    let of_values = values(alloc, unit, facts, declarations)?;
    let names_and_jumps = first_of(of_names, of_jumps);
    let types_and_values = first_of(of_types, of_values);
    Ok(first_of(names_and_jumps, types_and_values))
}

/// The same, by the unit's declarations.
fn mark_from(
    alloc: Global,
    unit: &Unit,
    declarations: &List<Declaration>,
) -> Result<Option<Mark>, AllocError>
    requires { declarations.now ≡ declared unit.now.statements }
    ensures { IfOk result (λ mark. Earliest (u.UnitFaults unit.now) mark) }
{
    let facts = facts_from(alloc, unit, declarations)?;
    mark_by(alloc, unit, &facts, declarations)
}

/// The first fault that a statement of the unit shows.
fn unit_mark(alloc: Global, unit: &Unit) -> Result<Option<Mark>, AllocError>
    ensures { IfOk result (λ mark. Earliest (u.UnitFaults unit.now) mark) }
{
    let declarations = declarations_of(alloc, &unit.statements)?;
    mark_from(alloc, unit, &declarations)
}

/// Whether a unit has none of the faults 12 to 26, and none of 37 on an array; or the first of them by line, and then by
/// number.
pub fn check_unit(alloc: Global, unit: &Unit) -> Result<(), Refused>
    ensures sound { IfOk result (λ _. u.IsSound unit.now) }
    ensures fault { IfErr result (λ e. u.Explains e unit.now) }
{
    match unit_mark(alloc, unit)? {
        Some(mark) => Err(refusal(alloc, &unit.name, mark)),
        None => Ok(()),
    }
}

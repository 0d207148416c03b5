//! The procedures of a program.
ghost use Rattle.std.specs.Prelude.{◌≡◌, List as Lists, length, map, IfOk};
ghost use Rattle.indexmap.specs.IndexMap.{get};
ghost use Rattle.f77_tree.specs.declared.unit.Unit as spec;
ghost use Rattle.f77_values.specs.Tables.{Name as Word, name_eq};
ghost use Rattle.f77_flow.specs.Blocks as blocks;
ghost use Rattle.f77_semantics.specs.Program as program;
ghost use Rattle.f77_semantics.specs.Source.{routine};
ghost use Rattle.interp_turns.specs.Flows.{Follows};
ghost use Rattle.interp_lower.specs.Units.{StandsFor};
ghost use Rattle.interp_calls.specs.Procedures.{IsUnit, AreUnits};
ghost use Rattle.f77_meaning.specs.Places as p;

use super::marks::{array_marks, kept_marks};
use super::places::{find, find_all};
use f77_flow::Control;
use f77_tree::{Name, Unit};
use indexmap::IndexMap;
use interp_calls::Procedure;
use interp_lower::{Routine, routine_of};
use std::alloc::{AllocError, Global};

fn control_of<'u>(alloc: Global, unit: &'u Unit) -> Result<Control<'u>, AllocError>
    ensures { IfOk result (λ control. control.statements.now ≡ unit.now.statements) }
{
    let statements = unit.statements.as_slice();
    if statements.len() > u32::MAX as usize {
        return Err(AllocError);
    }
    Control::new(alloc, statements)
}

fn with_routine<'u>(
    alloc: Global,
    control: Control<'u>,
    routine: Routine,
    places: &IndexMap<Name, usize>,
    main: usize,
) -> Result<Procedure<'u>, AllocError>
    ensures { (units : Lists spec.Unit) → ((q : Word) → get name_eq places.now q ≡ p.place_from 0 units q) → (u : program.Routine) → StandsFor routine u → Follows u control.entry.statements.now → u.first ≡ blocks.first control.entry.statements.now → length u.statements ≡ length control.entry.statements.now
        → IfOk result (λ made. IsUnit (p.find_of units main) made u) }
{
    let kept = kept_marks(alloc, &routine.cells.kept)?;
    let arrays = array_marks(alloc, &routine.dummy_arrays)?;
    let own = find(places, main, &routine.name);
    let callees = find_all(alloc, places, main, &routine.callees)?;
    Ok(Procedure {
        control,
        routine,
        kept,
        arrays,
        own,
        callees,
    })
}

// A unit with all that its runs look up.
fn procedure_of<'u>(
    alloc: Global,
    unit: &'u Unit,
    places: &IndexMap<Name, usize>,
    main: usize,
) -> Result<Procedure<'u>, AllocError>
    ensures { (units : Lists spec.Unit) → ((q : Word) → get name_eq places.now q ≡ p.place_from 0 units q) → IfOk result (λ made. IsUnit (p.find_of units main) made (routine unit.now)) }
{
    let control = control_of(alloc, unit)?;
    let routine = routine_of(alloc, unit, &control)?;
    with_routine(alloc, control, routine, places, main)
}

/// The procedures of a program, one by one.
pub fn procedures_of<'u>(
    alloc: Global,
    units: &'u [Unit],
    places: &IndexMap<Name, usize>,
    main: usize,
) -> Result<Vec<Procedure<'u>>, AllocError>
    requires { (q : Word) → get name_eq places.now q ≡ p.place_from 0 units.now q }
    ensures { IfOk result (λ all. AreUnits (p.find_of units.now main) all.items (map routine units.now)) }
{
    let mut all = Vec::new(alloc);
    for unit in units {
        all.push(procedure_of(alloc, unit, places, main)?)?;
    }
    Ok(all)
}

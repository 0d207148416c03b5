//! The first fault of a unit on names and their attributes.
ghost use Rattle.std.specs.Prelude.{◌≡◌, IfOk};
ghost use Rattle.f77_names.specs.Roles as r;
ghost use Rattle.fault_marks.specs.Earliest as e;
ghost use Rattle.check_names.specs.NameFaults as f;

use super::conflicts::conflict_flags;
use super::dummies::displaced_flags;
use super::large_arrays::{MOST_UNITS, large_flags};
use super::untyped::untyped_flags;
use f77_names::Facts;
use f77_tree::Unit;
use fault_marks::{Mark, earliest_flagged, first_of};
use std::alloc::{AllocError, Global};

fn conflict_fault(alloc: Global, unit: &Unit, facts: &Facts) -> Result<Option<Mark>, AllocError>
    ensures { IfOk result (λ mark. e.Earliest (f.ShowsConflict facts.now unit.now) mark) }
{
    let flags = conflict_flags(alloc, &facts.attributes, unit)?;
    Ok(earliest_flagged(unit.statements.as_slice(), flags.as_slice(), 12, 0))
}

fn untyped_fault(alloc: Global, unit: &Unit, facts: &Facts) -> Result<Option<Mark>, AllocError>
    ensures { IfOk result (λ mark. e.Earliest (f.ShowsUntyped facts.now unit.now) mark) }
{
    let flags = untyped_flags(alloc, unit, facts)?;
    Ok(earliest_flagged(unit.statements.as_slice(), flags.as_slice(), 13, 0))
}

fn displaced_fault(alloc: Global, unit: &Unit, facts: &Facts) -> Result<Option<Mark>, AllocError>
    ensures { IfOk result (λ mark. e.Earliest (f.ShowsDisplaced facts.now unit.now) mark) }
{
    let flags = displaced_flags(alloc, &facts.attributes, unit)?;
    Ok(earliest_flagged(unit.statements.as_slice(), flags.as_slice(), 24, 0))
}

fn large_fault(alloc: Global, unit: &Unit, facts: &Facts) -> Result<Option<Mark>, AllocError>
    ensures { IfOk result (λ mark. e.Earliest (f.ShowsLarge facts.now unit.now) mark) }
{
    let flags = large_flags(alloc, &facts.attributes, unit)?;
    Ok(earliest_flagged(
        unit.statements.as_slice(),
        flags.as_slice(),
        37,
        MOST_UNITS as u64,
    ))
}

/// The first of a unit's faults on names and their attributes: 12, 13, 24, and 37 on one array. `facts` are those of the unit.
pub fn name_fault(alloc: Global, unit: &Unit, facts: &Facts) -> Result<Option<Mark>, AllocError>
    requires { facts.now ≡ r.facts unit.now }
    ensures earliest { IfOk result (λ mark. e.Earliest (f.NameFaults unit.now) mark) }
{
    let conflict = conflict_fault(alloc, unit, facts)?;
    let untyped = untyped_fault(alloc, unit, facts)?;
    let displaced = displaced_fault(alloc, unit, facts)?;
    let large = large_fault(alloc, unit, facts)?;
    Ok(first_of(first_of(conflict, untyped), first_of(displaced, large)))
}

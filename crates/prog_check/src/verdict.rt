//! The first fault of a program, from those of each kind.
ghost use Rattle.std.specs.Prelude.{◌≡◌, ⊤, IfOk, IfErr};
ghost use Rattle.call_cycles.specs.Marks as k;
ghost use Rattle.prog_check.specs.ProgramFaults as p;

use super::initialised::initial_fault;
use super::limits::limit_fault;
use super::scans::{main_fault, text_fault};
use call_cycles::{ProgramMark, cycle_fault, first_of};
use f77_tree::{Name, Place, Refused, SourceFault, Unit};
use prog_texts::program_of;
use std::alloc::{AllocError, Global};

fn call_fault(alloc: Global, units: &[Unit]) -> Result<Option<ProgramMark>, AllocError>
    ensures { IfOk result (λ mark. k.Earliest (p.CallFaults units.now) mark) }
{
    let program = program_of(alloc, units)?;
    let cycle = cycle_fault(alloc, &program)?;
    Ok(first_of(text_fault(&program), cycle))
}

/// The first fault of a program.
fn program_fault(alloc: Global, units: &[Unit]) -> Result<Option<ProgramMark>, AllocError>
    ensures { IfOk result (λ mark. k.Earliest (p.ProgramShows units.now) mark) }
{
    let limits = limit_fault(alloc, units)?;
    let initial = initial_fault(alloc, units)?;
    let later = first_of(initial, limits);
    let calls = call_fault(alloc, units)?;
    let others = first_of(calls, later);
    Ok(first_of(main_fault(units), others))
}

fn name_at(alloc: Global, units: &[Unit], unit: Option<usize>) -> Result<Option<Name>, AllocError>
    ensures { IfOk result (λ name. name ≡ p.name_at units.now unit) }
{
    let Some(place) = unit else {
        return Ok(None);
    };
    match units.get(place) {
        Some(unit) => Ok(Some(unit.name.copy(alloc)?)),
        None => Ok(None),
    }
}

/// The fault as it is told: with the name of its unit.
fn fault_of(alloc: Global, units: &[Unit], mark: ProgramMark) -> Result<SourceFault, AllocError>
    ensures { IfOk result (λ fault. fault ≡ p.fault_of units.now mark) }
{
    Ok(SourceFault {
        number: mark.number,
        place: Place {
            unit: name_at(alloc, units, mark.unit)?,
            line: mark.line,
        },
        limit: mark.limit,
    })
}

fn refusal(alloc: Global, units: &[Unit], mark: ProgramMark) -> Refused
    ensures { k.IsFirst (p.ProgramShows units.now) mark → p.Explains result units.now }
{
    match fault_of(alloc, units, mark) {
        Ok(fault) => Refused::Fault(fault),
        Err(_) => Refused::OutOfMemory,
    }
}

/// Whether a program has none of the faults 27 to 37; or the first of them by number, then by unit, then by line.
pub fn check_program(alloc: Global, units: &[Unit]) -> Result<(), Refused>
    ensures accepted { IfOk result (λ _. p.IsAccepted units.now) }
    ensures fault { IfErr result (λ e. p.Explains e units.now) }
{
    match program_fault(alloc, units)? {
        Some(mark) => Err(refusal(alloc, units, mark)),
        None => Ok(()),
    }
}

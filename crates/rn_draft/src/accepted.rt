//! The trees of a program's units, or its first fault.
ghost use Rattle.std.specs.Prelude.{◌≡◌, IfOk, IfErr};
ghost use Rattle.std.specs.List.{All, AllZip};
ghost use Rattle.f77_parse.specs.Statements.{EndsUnit};
ghost use Rattle.rn_draft.specs.Accepted as a;
ghost use Rattle.rn_draft.specs.Gathering as g;

use f77_check::check_unit;
use f77_parse::parse_unit;
use f77_tree::{List, Refused, Unit};
use fixed_form::UnitText;
use prog_check::check_program;
use std::alloc::Global;

/// The tree of a unit, or the first of its own faults.
fn accept_unit(alloc: Global, unit: &UnitText) -> Result<Unit, Refused>
    requires ended { EndsUnit unit.now }
    ensures accepted { IfOk result (λ tree. a.IsAccepted unit.now tree) }
    ensures few { IfOk result (λ tree. g.HasFewTokens tree) }
    ensures fault { IfErr result (λ e. g.ExplainsUnit e unit.now) }
{
    let tree = parse_unit(alloc, unit)?;
    check_unit(alloc, &tree)?;
    Ok(tree)
}

/// The trees of units, or the fault of the first unit that has one.
fn accept_units(alloc: Global, units: &[UnitText]) -> Result<List<Unit>, Refused>
    requires ended { All EndsUnit units.now }
    ensures accepted { IfOk result (λ trees. AllZip a.IsAccepted units.now trees) }
    ensures few { IfOk result (λ trees. All g.HasFewTokens trees) }
    ensures fault { IfErr result (λ e. g.ExplainsAmong e units.now) }
{
    let mut trees = List::new(alloc);
    for unit in units {
        let tree = accept_unit(alloc, unit)?;
        trees.push(tree)?;
    }
    Ok(trees)
}

/// The trees of the program that some units are; or its first fault: units in their order, in each first the faults of its
/// statements and then those of its tree, and then the faults of the program.
pub fn accept(alloc: Global, units: &[UnitText]) -> Result<List<Unit>, Refused>
    requires ended { All EndsUnit units.now }
    ensures accepted { IfOk result (λ trees. a.Accepted units.now trees) }
    ensures few { IfOk result (λ trees. All g.HasFewTokens trees) }
    ensures fault { IfErr result (λ e. a.Explains e units.now) }
{
    let trees = accept_units(alloc, units)?;
    check_program(alloc, trees.as_slice())?;
    Ok(trees)
}

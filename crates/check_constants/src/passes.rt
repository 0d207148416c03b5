//! The statements at which a constant expression is needed and there is none.
ghost use Rattle.std.specs.Prelude.{◌≡◌, IfOk};
ghost use Rattle.fault_marks.specs.Earliest.{Earliest};
ghost use Rattle.f77_names.specs.Roles.{facts as facts_in};
ghost use Rattle.check_constants.specs.Defined as d;
ghost use Rattle.check_constants.specs.Faults as v;
ghost use Rattle.check_constants.specs.Needed as n;
ghost use Rattle.check_constants.specs.Passes as p;

use super::defined::Defined;
use super::needed::statement_lacks;
use f77_names::Facts;
use f77_store::Place;
use f77_tree::{List, Stmt, Unit};
use f77_values::Table;
use fault_marks::{Mark, earliest_flagged};
use std::alloc::{AllocError, Global};

#[tactic(auto, using(crate::proofs::Layers::lists))]
fn lacking(
    alloc: Global,
    facts: &Facts,
    commons: &Table<Place>,
    statements: &List<Stmt>,
) -> Result<List<bool>, AllocError>
    ensures { IfOk result (λ flags. flags ≡ p.flags_from d.with_statement (n.statement_lacks facts.now commons.now) d.nothing statements.now) }
{
    let mut defined = Defined::new(alloc);
    let mut flags = List::new(alloc);
    for statement in statements.as_slice() {
        flags.push(statement_lacks(alloc, facts, commons, &mut defined, statement)?)?;
    }
    Ok(flags)
}

/// The first statement of a unit that needs a constant expression and has none: its fault 22. `facts` is what `facts_of` gives for the
/// unit, and `commons` the places that `lay_out` gives for the members of its COMMON blocks.
pub fn constant_fault(
    alloc: Global,
    unit: &Unit,
    facts: &Facts,
    commons: &Table<Place>,
) -> Result<Option<Mark>, AllocError>
    requires facts { facts.now ≡ facts_in unit.now }
    requires commons { commons.now ≡ v.in_commons unit.now }
    ensures first { IfOk result (λ mark. Earliest (v.ConstantFaults unit.now) mark) }
{
    let flags = lacking(alloc, facts, commons, &unit.statements)?;
    Ok(earliest_flagged(unit.statements.as_slice(), flags.as_slice(), 22, 0))
}

//! The statements of DATA that aren't right.
ghost use Rattle.std.specs.Prelude.{◌≡◌, IfOk, OnOk};
ghost use Rattle.fault_marks.specs.Earliest.{Earliest};
ghost use Rattle.fault_marks.specs.Places.{ShowsAt};
ghost use Rattle.f77_names.specs.Roles.{facts as facts_in};
ghost use Rattle.check_constants.specs.Defined as d;
ghost use Rattle.check_constants.specs.Faults as c;
ghost use Rattle.check_constants.specs.Passes as p;
ghost use Rattle.check_data.specs.DataFaults as w;
ghost use Rattle.check_data.specs.Faults as f;
ghost use Rattle.check_data.specs.Measures as m;

use super::data::statement_wrong;
use super::measures::{Measured, measures_of};
use super::repeats::repeat_fault;
use check_constants::{Defined, define_in};
use f77_names::Facts;
use f77_store::Place;
use f77_tree::{List, Stmt, Unit, UnitKind};
use f77_values::Table;
use fault_marks::{Mark, earliest_flagged, first_of};
use std::alloc::{AllocError, Global};

fn step(
    alloc: Global,
    kind: UnitKind,
    facts: &Facts,
    commons: &Table<Place>,
    measures: &Table<Measured>,
    defined: &mut Defined,
    statement: &Stmt,
) -> Result<bool, AllocError>
    ensures wrong { IfOk result (λ wrong. wrong ≡ w.statement_wrong kind facts.now commons.now measures.now defined.old statement.now) }
    ensures defined { OnOk result (defined.new ≡ d.with_statement defined.old statement.now) }
{
    let wrong = statement_wrong(alloc, kind, facts, commons, measures, defined, statement)?;
    define_in(alloc, defined, statement)?;
    Ok(wrong)
}

#[tactic(auto, using(crate::proofs::Layers::lists))]
fn wrong_data(
    alloc: Global,
    kind: UnitKind,
    facts: &Facts,
    commons: &Table<Place>,
    measures: &Table<Measured>,
    statements: &List<Stmt>,
) -> Result<List<bool>, AllocError>
    ensures { IfOk result (λ flags. flags ≡ p.flags_from d.with_statement (w.statement_wrong kind facts.now commons.now measures.now) d.nothing statements.now) }
{
    let mut defined = Defined::new(alloc);
    let mut flags = List::new(alloc);
    for statement in statements.as_slice() {
        flags.push(step(
            alloc,
            kind,
            facts,
            commons,
            measures,
            &mut defined,
            statement,
        )?)?;
    }
    Ok(flags)
}

fn data_flags(
    alloc: Global,
    unit: &Unit,
    facts: &Facts,
    commons: &Table<Place>,
) -> Result<List<bool>, AllocError>
    ensures { IfOk result (λ flags. flags ≡ p.flags_from d.with_statement (w.statement_wrong unit.now.kind facts.now commons.now (m.measures unit.now.statements)) d.nothing unit.now.statements) }
{
    let measures = measures_of(alloc, &unit.statements)?;
    wrong_data(
        alloc,
        unit.kind,
        facts,
        commons,
        &measures,
        &unit.statements,
    )
}

/// The first statement of DATA that isn't right by itself.
fn statement_fault(
    alloc: Global,
    unit: &Unit,
    facts: &Facts,
    commons: &Table<Place>,
) -> Result<Option<Mark>, AllocError>
    requires facts { facts.now ≡ facts_in unit.now }
    requires commons { commons.now ≡ c.in_commons unit.now }
    ensures { IfOk result (λ mark. Earliest (ShowsAt unit.now.statements (f.DataWrong unit.now) 23 0) mark) }
{
    let flags = data_flags(alloc, unit, facts, commons)?;
    Ok(earliest_flagged(unit.statements.as_slice(), flags.as_slice(), 23, 0))
}

/// The first of a unit's faults 23: a statement of DATA isn't right by itself, or initialises what was initialised before. `facts` is
/// what `facts_of` gives for the unit, and `commons` the places that `lay_out` gives for the members of its COMMON blocks.
pub fn data_fault(
    alloc: Global,
    unit: &Unit,
    facts: &Facts,
    commons: &Table<Place>,
) -> Result<Option<Mark>, AllocError>
    requires facts { facts.now ≡ facts_in unit.now }
    requires commons { commons.now ≡ c.in_commons unit.now }
    ensures first { IfOk result (λ mark. Earliest (f.DataFaults unit.now) mark) }
{
    let wrong = statement_fault(alloc, unit, facts, commons)?;
    let repeat = repeat_fault(alloc, unit)?;
    Ok(first_of(wrong, repeat))
}

//! The first fault of a unit in its expressions and targets.
ghost use Rattle.std.specs.Prelude.{◌≡◌, map, IfOk};
ghost use Rattle.f77_names.specs.Roles as r;
ghost use Rattle.fault_marks.specs.Earliest as e;
ghost use Rattle.fault_marks.specs.Places as p;
ghost use Rattle.check_types.specs.TypeFaults as t;

use super::breaks::{Rule, form_breaks};
use super::overreaching::exponent_flags;
use f77_names::Facts;
use f77_tree::{List, Stmt, Unit};
use fault_marks::{Mark, earliest_flagged, first_of};
use std::alloc::{AllocError, Global};

fn breaking(
    alloc: Global,
    facts: &Facts,
    statements: &List<Stmt>,
    rule: Rule,
) -> Result<Vec<bool>, AllocError>
    ensures { IfOk result (λ flags. flags.items ≡ map (t.statement_breaks facts.now rule) statements.now) }
{
    let mut flags = Vec::new(alloc);
    for statement in statements.as_slice() {
        flags.push(form_breaks(facts, &facts.constants, rule, &statement.form))?;
    }
    Ok(flags)
}

fn first_breaking(
    alloc: Global,
    facts: &Facts,
    statements: &List<Stmt>,
    rule: Rule,
    number: u8,
) -> Result<Option<Mark>, AllocError>
    ensures { IfOk result (e.Earliest (p.ShowsAt statements.now (t.BreaksAt facts.now statements.now rule) number 0)) }
{
    let flags = breaking(alloc, facts, statements, rule)?;
    Ok(earliest_flagged(statements.as_slice(), flags.as_slice(), number, 0))
}

fn first_overreaching(
    alloc: Global,
    facts: &Facts,
    statements: &List<Stmt>,
) -> Result<Option<Mark>, AllocError>
    ensures { IfOk result (e.Earliest (p.ShowsAt statements.now (t.OverreachesAt facts.now statements.now) 26 0)) }
{
    let flags = exponent_flags(alloc, facts, statements)?;
    Ok(earliest_flagged(statements.as_slice(), flags.as_slice(), 26, 0))
}

/// The first of a unit's faults in its expressions and targets: a wrong type or an intrinsic's wrong number of arguments (19), a wrong
/// number of subscripts (20), what is no scalar where one is needed (21), a target that is none (25), a wrong exponent (26). The
/// facts are those of the unit.
pub fn type_fault(alloc: Global, unit: &Unit, facts: &Facts) -> Result<Option<Mark>, AllocError>
    requires { facts.now ≡ r.facts unit.now }
    ensures { IfOk result (e.Earliest (t.TypeFaults unit.now)) }
{
    let types = first_breaking(alloc, facts, &unit.statements, Rule::Types, 19)?;
    let subscripts = first_breaking(alloc, facts, &unit.statements, Rule::Subscripts, 20)?;
    let scalars = first_breaking(alloc, facts, &unit.statements, Rule::Scalars, 21)?;
    let targets = first_breaking(alloc, facts, &unit.statements, Rule::Targets, 25)?;
    let exponents = first_overreaching(alloc, facts, &unit.statements)?;
    let names = first_of(scalars, first_of(targets, exponents));
    Ok(first_of(types, first_of(subscripts, names)))
}

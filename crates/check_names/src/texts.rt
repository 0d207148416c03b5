//! The names of one statement.
ghost use Rattle.std.specs.Prelude.{◌≡◌, ◌∷◌, [], true, IfOk};
ghost use Rattle.f77_names.specs.Occurrences as o;
ghost use Rattle.check_names.specs.Places as p;

use f77_names::{Occurrence, occurrences_of};
use f77_tree::{Duplicate, List, Stmt, Unit, UnitKind, blank_name};
use std::alloc::{AllocError, Global};

fn alone(alloc: Global, statement: &Stmt) -> Result<List<Stmt>, AllocError>
    ensures { IfOk result (λ all. all ≡ statement.now ∷ []) }
{
    let mut all = List::new(alloc);
    all.push(statement.copy(alloc)?)?;
    Ok(all)
}

fn with_head(alloc: Global, unit: &Unit, statement: &Stmt) -> Result<List<Occurrence>, AllocError>
    ensures { IfOk result (λ all. all ≡ p.in_text unit.now true statement.now) }
{
    let part = Unit {
        kind: unit.kind,
        name: unit.name.copy(alloc)?,
        dummies: unit.dummies.duplicate(alloc)?,
        statements: alone(alloc, statement)?,
        tokens: 0,
    };
    occurrences_of(alloc, &part)
}

fn without_head(alloc: Global, statement: &Stmt) -> Result<List<Occurrence>, AllocError>
    ensures { IfOk result (λ all. all ≡ o.in_statement statement.now) }
{
    let part = Unit {
        kind: UnitKind::Main,
        name: blank_name(alloc),
        dummies: List::new(alloc),
        statements: alone(alloc, statement)?,
        tokens: 0,
    };
    occurrences_of(alloc, &part)
}

/// The names of a statement in the order of its text, behind those of the unit's head where it is the first.
pub fn occurrences_in(
    alloc: Global,
    unit: &Unit,
    is_first: bool,
    statement: &Stmt,
) -> Result<List<Occurrence>, AllocError>
    ensures { IfOk result (λ all. all ≡ p.in_text unit.now is_first statement.now) }
{
    if is_first {
        with_head(alloc, unit, statement)
    } else {
        without_head(alloc, statement)
    }
}

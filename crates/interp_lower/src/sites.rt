//! How many sites a statement has.
ghost use Rattle.std.specs.Prelude.{◌≡◌, suc, length, flat_map, if◌then◌else◌, IfOk};
ghost use Rattle.f77_store.specs.Layouts as l;
ghost use Rattle.f77_names.specs.Occurrences as o;

use super::steps::following;
use f77_names::{Attributes, Facts, Manner, Occurrence, is_function, occurrences_of};
use f77_tree::{List, Stmt, Unit, UnitKind, blank_name};
use std::alloc::{AllocError, Global};

// A unit with this statement alone. Its names occur as the statement's do.
fn alone(alloc: Global, statement: &Stmt) -> Result<Unit, AllocError>
    ensures { IfOk result (λ unit. o.occurrences unit ≡ o.in_statement statement.now) }
{
    let mut statements = List::new(alloc);
    statements.push(statement.copy(alloc)?)?;
    Ok(Unit {
        kind: UnitKind::Main,
        name: blank_name(alloc),
        dummies: List::new(alloc),
        statements,
        tokens: 0,
    })
}

fn is_site(attributes: &Attributes, occurrence: &Occurrence) -> bool
    ensures { result ≡ l.is_site attributes.now occurrence.now.manner occurrence.now.name }
{
    match occurrence.manner {
        Manner::Called => true,
        Manner::Listed => is_function(attributes, &occurrence.name),
        _ => false,
    }
}

fn more_sites(
    attributes: &Attributes,
    occurrence: &Occurrence,
    count: usize,
) -> Result<usize, AllocError>
    ensures { IfOk result (λ all. all ≡ (if l.is_site attributes.now occurrence.now.manner occurrence.now.name then suc count else count)) }
{
    if is_site(attributes, occurrence) {
        following(count)
    } else {
        Ok(count)
    }
}

fn count_sites(attributes: &Attributes, all: &List<Occurrence>) -> Result<usize, AllocError>
    ensures { IfOk result (λ count. count ≡ length (flat_map (l.callee attributes.now) all.now)) }
{
    let mut count = 0;
    for occurrence in all.as_slice() {
        count = more_sites(attributes, occurrence, count)?;
    }
    Ok(count)
}

/// The number of the sites of a statement.
pub fn sites_of(alloc: Global, facts: &Facts, statement: &Stmt) -> Result<usize, AllocError>
    ensures { IfOk result (λ count. count ≡ length (l.callees_with facts.now (o.in_statement statement.now))) }
{
    let unit = alone(alloc, statement)?;
    let all = occurrences_of(alloc, &unit)?;
    count_sites(&facts.attributes, &all)
}

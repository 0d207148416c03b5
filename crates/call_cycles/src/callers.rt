//! The edges turned around: for each unit the sites that call it.
ghost use Rattle.std.specs.Prelude.{◌≡◌, [], map, fold, IfOk, OnOk};
ghost use Rattle.call_cycles.specs.Searching as h;

use super::cycles::Edge;
use f77_tree::List;
use std::alloc::{AllocError, Global};

fn put(callers: &mut Vec<List<Edge>>, caller: Edge, to: usize) -> Result<(), AllocError>
    ensures { OnOk result (callers.new.items ≡ h.put_caller callers.old.items caller (Some to)) }
{
    if to >= callers.len() {
        return Ok(());
    }
    callers[to].push(caller)
}

fn put_caller(
    callers: &mut Vec<List<Edge>>,
    caller: Edge,
    target: Option<usize>,
) -> Result<(), AllocError>
    ensures { OnOk result (callers.new.items ≡ h.put_caller callers.old.items caller target) }
{
    match target {
        Some(to) => put(callers, caller, to),
        None => Ok(()),
    }
}

fn turn(callers: &mut Vec<List<Edge>>, place: usize, e: Edge) -> Result<(), AllocError>
    ensures { OnOk result (callers.new.items ≡ h.turn place callers.old.items e) }
{
    let caller = Edge {
        line: e.line,
        target: Some(place),
    };
    put_caller(callers, caller, e.target)
}

fn turn_row(callers: &mut Vec<List<Edge>>, place: usize, row: &List<Edge>) -> Result<(), AllocError>
    ensures { OnOk result (callers.new.items ≡ fold (h.turn place) callers.old.items row.now) }
{
    for e in row.as_slice() {
        turn(callers, place, *e)?;
    }
    Ok(())
}

fn no_callers(alloc: Global, rows: &List<List<Edge>>) -> Result<Vec<List<Edge>>, AllocError>
    ensures { IfOk result (λ v. v.items ≡ map (λ _. []) rows.now) }
{
    rows.as_slice()
        .iter()
        .map(|_| List::new(alloc))
        .collect(alloc)
}

/// For each unit the sites that call it, each by its line and the place of the unit that it stands in.
pub fn callers_of(alloc: Global, rows: &List<List<Edge>>) -> Result<List<List<Edge>>, AllocError>
    ensures { IfOk result (λ callers. callers ≡ h.callers rows.now) }
{
    let mut callers = no_callers(alloc, rows)?;
    for (place, row) in rows.as_slice().iter().enumerate() {
        turn_row(&mut callers, place, row)?;
    }
    Ok(List::from_vec(callers))
}

//! What a unit leads to, by a search that goes through each unit once.
ghost use Rattle.std.specs.Prelude.{◌≡◌, map, fold, false, IfOk, OnOk};
ghost use Rattle.std.specs.List.{slice_get};
ghost use Rattle.call_cycles.specs.Searching as h;

use super::cycles::Edge;
use f77_tree::List;
use std::alloc::{AllocError, Global};

pub fn mark(seen: &mut Vec<bool>, queue: &mut Vec<usize>, x: usize) -> Result<(), AllocError>
    ensures { OnOk result (h.search seen.new.items queue.new.items ≡ h.mark (h.search seen.old.items queue.old.items) x) }
{
    if x >= seen.len() {
        return Ok(());
    }
    if seen[x] {
        return Ok(());
    }
    queue.push(x)?;
    seen[x] = true;
    Ok(())
}

fn mark_target(
    seen: &mut Vec<bool>,
    queue: &mut Vec<usize>,
    target: Option<usize>,
) -> Result<(), AllocError>
    ensures { OnOk result (h.search seen.new.items queue.new.items ≡ h.mark_target (h.search seen.old.items queue.old.items) target) }
{
    match target {
        Some(x) => mark(seen, queue, x),
        None => Ok(()),
    }
}

fn visit_all(
    seen: &mut Vec<bool>,
    queue: &mut Vec<usize>,
    row: &List<Edge>,
) -> Result<(), AllocError>
    ensures { OnOk result (h.search seen.new.items queue.new.items ≡ fold h.visit (h.search seen.old.items queue.old.items) row.now) }
{
    for e in row.as_slice() {
        mark_target(seen, queue, e.target)?;
    }
    Ok(())
}

pub fn visit_row(
    rows: &List<List<Edge>>,
    seen: &mut Vec<bool>,
    queue: &mut Vec<usize>,
    x: usize,
) -> Result<(), AllocError>
    ensures { OnOk result (h.search seen.new.items queue.new.items ≡ fold h.visit (h.search seen.old.items queue.old.items) (h.row_at rows.now x)) }
{
    match rows.as_slice().get(x) {
        Some(row) => visit_all(seen, queue, row),
        None => Ok(()),
    }
}

pub fn at(queue: &Vec<usize>, i: usize) -> Option<usize>
    ensures { result ≡ slice_get queue.now.items i }
{
    match queue.as_slice().get(i) {
        Some(x) => Some(*x),
        None => None,
    }
}

fn step(
    rows: &List<List<Edge>>,
    seen: &mut Vec<bool>,
    queue: &mut Vec<usize>,
    i: usize,
) -> Result<(), AllocError>
    ensures { OnOk result (h.search seen.new.items queue.new.items ≡ h.step rows.now (h.search seen.old.items queue.old.items) (slice_get queue.old.items i)) }
{
    match at(queue, i) {
        Some(x) => visit_row(rows, seen, queue, x),
        None => Ok(()),
    }
}

pub fn blank(alloc: Global, rows: &List<List<Edge>>) -> Result<Vec<bool>, AllocError>
    ensures { IfOk result (λ v. v.items ≡ map (λ _. false) rows.now) }
{
    rows.as_slice().iter().map(|_| false).collect(alloc)
}

/// A flag for each unit to which a chain of edges leads from the start, the start itself among them.
pub fn led_to(alloc: Global, rows: &List<List<Edge>>, start: usize) -> Result<Vec<bool>, AllocError>
    ensures { IfOk result (λ v. v.items ≡ (h.led_to rows.now start).seen) }
{
    let mut seen = blank(alloc, rows)?;
    let mut queue = Vec::new(alloc);
    mark(&mut seen, &mut queue, start)?;
    for i in 0..rows.len() {
        step(rows, &mut seen, &mut queue, i)?;
    }
    Ok(seen)
}

//! A rank for each unit, so that a search for a cycle begins only at units that lie on one.
//!
//! The ranks number the strongly connected components of the program's calls: units on one cycle have the same rank, and no site leads
//! to a greater one. Only the second is needed for right answers, and a look at each site proves it; the first makes them fast.
ghost use Rattle.std.specs.Prelude.{◌≡◌, IfOk};
ghost use Rattle.std.specs.List.{list_any};
ghost use Rattle.call_cycles.specs.Searching as h;

use super::cycles::Edge;
use super::searches::{at, blank, mark, visit_row};
use f77_tree::List;
use std::alloc::{AllocError, Global};

type Rows = List<List<Edge>>;

/// What is left to do of a walk: to enter a unit, or to leave one when all that it leads to was left.
#[derive(Clone, Copy, Debug, Drop)]
enum Visit {
    Enter(usize),
    Leave(usize),
}

fn enter_later(stack: &mut Vec<Visit>, row: &List<Edge>) -> Result<(), AllocError> {
    for e in row.as_slice() {
        if let Some(to) = e.target {
            stack.push(Visit::Enter(to))?;
        }
    }
    Ok(())
}

fn enter(
    rows: &Rows,
    seen: &mut Vec<bool>,
    stack: &mut Vec<Visit>,
    x: usize,
) -> Result<(), AllocError> {
    if x >= seen.len() {
        return Ok(());
    }
    if seen[x] {
        return Ok(());
    }
    seen[x] = true;
    stack.push(Visit::Leave(x))?;
    match rows.as_slice().get(x) {
        Some(row) => enter_later(stack, row),
        None => Ok(()),
    }
}

// Each unit is left once, and entered once at most for each site that calls it, and once as the start.
fn turns(rows: &Rows) -> usize {
    let mut turns = rows.len().saturating_add(1);
    for row in rows.as_slice() {
        turns = turns.saturating_add(row.len());
    }
    turns
}

fn walk(
    alloc: Global,
    rows: &Rows,
    seen: &mut Vec<bool>,
    left: &mut Vec<usize>,
    turns: usize,
    start: usize,
) -> Result<(), AllocError> {
    let mut stack = Vec::new(alloc);
    stack.push(Visit::Enter(start))?;
    for _ in 0..turns {
        match stack.pop() {
            Some(Visit::Enter(x)) => enter(rows, seen, &mut stack, x)?,
            Some(Visit::Leave(x)) => left.push(x)?,
            None => return Ok(()),
        }
    }
    Ok(())
}

// The units in the order in which a walk in depth leaves them.
fn leaving_order(alloc: Global, rows: &Rows) -> Result<Vec<usize>, AllocError> {
    let turns = turns(rows);
    let mut seen = blank(alloc, rows)?;
    let mut left = Vec::new(alloc);
    for start in 0..rows.len() {
        walk(alloc, rows, &mut seen, &mut left, turns, start)?;
    }
    Ok(left)
}

fn set_rank(ranks: &mut Vec<usize>, x: usize, rank: usize) {
    if x < ranks.len() {
        ranks[x] = rank;
    }
}

// What is found from this place of the queue on gets the rank.
fn rank_found(
    rows: &Rows,
    ranks: &mut Vec<usize>,
    seen: &mut Vec<bool>,
    queue: &mut Vec<usize>,
    rank: usize,
) -> Result<(), AllocError> {
    for i in rank..rows.len() {
        let Some(x) = at(queue, i) else {
            return Ok(());
        };
        set_rank(ranks, x, rank);
        visit_row(rows, seen, queue, x)?;
    }
    Ok(())
}

// The strongly connected components, by two walks: the last unit that a walk among callers leaves lies in a component that leads to no
// other. What it leads to is that component, and what the next leads to besides is the next.
fn components(alloc: Global, rows: &Rows, callers: &Rows) -> Result<Vec<usize>, AllocError> {
    let order = leaving_order(alloc, callers)?;
    let mut ranks = vec![in alloc; 0; rows.len()]?;
    let mut seen = blank(alloc, rows)?;
    let mut queue = Vec::new(alloc);
    for start in order.as_slice().iter().rev() {
        let rank = queue.len();
        mark(&mut seen, &mut queue, *start)?;
        rank_found(rows, &mut ranks, &mut seen, &mut queue, rank)?;
    }
    Ok(ranks)
}

fn rank_at(ranks: &Vec<usize>, x: usize) -> usize
    ensures { result ≡ h.rank_at ranks.now.items x }
{
    match ranks.as_slice().get(x) {
        Some(rank) => *rank,
        None => 0,
    }
}

fn is_above(ranks: &Vec<usize>, rank: usize, target: Option<usize>) -> bool
    ensures { result ≡ h.is_above ranks.now.items rank target }
{
    match target {
        Some(to) => rank < rank_at(ranks, to),
        None => false,
    }
}

fn leads_up(ranks: &Vec<usize>, rank: usize, row: &List<Edge>) -> bool
    ensures { result ≡ list_any (h.leads_up ranks.now.items rank) row.now }
{
    row.as_slice()
        .iter()
        .any(|e| is_above(ranks, rank, e.target))
}

fn some_lead_up(ranks: &Vec<usize>, rows: &Rows) -> bool
    ensures { result ≡ h.some_lead_up ranks.now.items 0 rows.now }
{
    for (place, row) in rows.as_slice().iter().enumerate() {
        if leads_up(ranks, rank_at(ranks, place), row) {
            return true;
        }
    }
    false
}

fn is_level(ranks: &Vec<usize>, rank: usize, target: Option<usize>) -> bool
    ensures { result ≡ h.is_level ranks.now.items rank target }
{
    match target {
        Some(to) => rank_at(ranks, to) == rank,
        None => false,
    }
}

fn has_level(ranks: &Vec<usize>, rank: usize, row: &List<Edge>) -> bool
    ensures { result ≡ list_any (h.stays_level ranks.now.items rank) row.now }
{
    row.as_slice()
        .iter()
        .any(|e| is_level(ranks, rank, e.target))
}

/// Whether one of a unit's sites leads to the unit's own rank. No other unit lies on a cycle.
pub fn may_cycle(ranks: &Vec<usize>, place: usize, row: &List<Edge>) -> bool
    ensures { result ≡ h.may_cycle ranks.now.items place row.now }
{
    has_level(ranks, rank_at(ranks, place), row)
}

/// Ranks of which no site leads up, given the sites of each unit and its callers.
///
/// If the components weren't right, all units would have the same rank, and each were searched.
pub fn ranks_of(alloc: Global, rows: &Rows, callers: &Rows) -> Result<Vec<usize>, AllocError>
    ensures { IfOk result (λ ranks. h.NoneLeadUp rows.now ranks.items) }
{
    let ranks = components(alloc, rows, callers)?;
    if some_lead_up(&ranks, rows) {
        return Ok(Vec::new(alloc));
    }
    Ok(ranks)
}

//! Units that call themselves, directly or through others.
ghost use Rattle.std.specs.Prelude.{◌≡◌, ◌++◌, map, List as Lists, IfOk, OnOk};
ghost use Rattle.f77_tree.specs.declared.unit.Unit.{Unit as AnyUnit};
ghost use Rattle.call_cycles.specs.Cycles as c;
ghost use Rattle.call_cycles.specs.Marks as k;
ghost use Rattle.prog_texts.specs.Mentions as m;
ghost use Rattle.call_cycles.specs.Searching as h;
ghost use Rattle.prog_texts.specs.Signatures as g;

use super::callers::callers_of;
use super::marks::{ProgramMark, mark_at};
use super::ranks::{may_cycle, ranks_of};
use super::searches::led_to;
use f77_tree::List;
use f77_values::Table;
use prog_texts::{Mention, Program, Signature, Site};
use std::alloc::{AllocError, Global};

/// A site by the line of its statement and the place of the unit that it calls, if there is one.
#[derive(Clone, Copy, Debug, Drop)]
pub struct Edge {
    pub line: u32,
    pub target: Option<usize>,
}

fn target(units: &Table<Signature>, site: &Site) -> Option<usize>
    ensures { result ≡ c.target units.now site.now }
{
    match units.get(&site.callee) {
        Some(unit) => Some(unit.place),
        None => None,
    }
}

#[tactic(auto, using(prog_texts::proofs::Said::joined))]
fn push_edges(
    found: &mut List<Edge>,
    units: &Table<Signature>,
    mention: &Mention,
) -> Result<(), AllocError>
    ensures { OnOk result (found.new ≡ found.old ++ h.edges_of units.now mention.now) }
{
    match mention {
        Mention::Site(site) => found.push(Edge {
            line: site.line,
            target: target(units, site),
        }),
        _ => Ok(()),
    }
}

#[tactic(auto, using(prog_texts::proofs::Said::joined))]
fn row_of(
    alloc: Global,
    units: &Table<Signature>,
    text: &List<Mention>,
) -> Result<List<Edge>, AllocError>
    ensures { IfOk result (λ row. row ≡ h.row_of units.now text.now) }
{
    let mut found = List::new(alloc);
    for mention in text.as_slice() {
        push_edges(&mut found, units, mention)?;
    }
    Ok(found)
}

#[tactic(auto, using(prog_texts::proofs::Said::joined))]
fn rows_of(
    alloc: Global,
    units: &Table<Signature>,
    texts: &List<List<Mention>>,
) -> Result<List<List<Edge>>, AllocError>
    ensures { IfOk result (λ rows. rows ≡ map (h.row_of units.now) texts.now) }
{
    let mut rows = List::new(alloc);
    for text in texts.as_slice() {
        rows.push(row_of(alloc, units, text)?)?;
    }
    Ok(rows)
}

fn is_seen(seen: &Vec<bool>, target: Option<usize>) -> bool
    ensures { result ≡ h.is_seen seen.now.items target }
{
    let Some(x) = target else {
        return false;
    };
    if x >= seen.len() {
        return false;
    }
    seen[x]
}

fn first_line(seen: &Vec<bool>, row: &List<Edge>) -> Option<u32>
    ensures { result ≡ h.first_line seen.now.items row.now }
{
    for e in row.as_slice() {
        if is_seen(seen, e.target) {
            return Some(e.line);
        }
    }
    None
}

fn cycle_line(
    alloc: Global,
    callers: &List<List<Edge>>,
    ranks: &Vec<usize>,
    place: usize,
    row: &List<Edge>,
) -> Result<Option<u32>, AllocError>
    ensures { IfOk result (λ line. line ≡ h.cycle_line callers.now ranks.now.items place row.now) }
{
    if !may_cycle(ranks, place, row) {
        return Ok(None);
    }
    let leading = led_to(alloc, callers, place)?;
    Ok(first_line(&leading, row))
}

fn first_cycle(
    alloc: Global,
    callers: &List<List<Edge>>,
    ranks: &Vec<usize>,
    rows: &List<List<Edge>>,
) -> Result<Option<ProgramMark>, AllocError>
    ensures { IfOk result (λ mark. mark ≡ h.first_cycle callers.now ranks.now.items 0 rows.now) }
{
    for (place, row) in rows.as_slice().iter().enumerate() {
        let found = cycle_line(alloc, callers, ranks, place, row)?;
        if let Some(line) = found {
            return Ok(Some(mark_at(34, 0, Some(place), line)));
        }
    }
    Ok(None)
}

fn rows_fault(alloc: Global, rows: &List<List<Edge>>) -> Result<Option<ProgramMark>, AllocError>
    ensures { (units : Lists AnyUnit) → rows.now ≡ c.rows units → IfOk result (λ mark. k.Earliest (c.HasCycle units) mark) }
{
    let callers = callers_of(alloc, rows)?;
    let ranks = ranks_of(alloc, rows, &callers)?;
    first_cycle(alloc, &callers, &ranks, rows)
}

/// The fault 34: the first unit from which a chain of sites leads back to it, at its first site that does.
pub fn cycle_fault(alloc: Global, program: &Program) -> Result<Option<ProgramMark>, AllocError>
    ensures { (units : Lists AnyUnit) → program.now.signatures ≡ g.signatures units → program.now.texts ≡ map m.mentions units → IfOk result (λ mark. k.Earliest (c.HasCycle units) mark) }
{
    let rows = rows_of(alloc, &program.signatures, &program.texts)?;
    rows_fault(alloc, &rows)
}

//! The limits of a program.
ghost use Rattle.std.specs.Prelude.{◌≡◌, ◌+◌, ◌++◌, ℕ, List as Lists, min, map, sum_by, IfOk, OnOk, ◌<◌};
ghost use Rattle.f77_store.specs.Areas as b;
ghost use Rattle.f77_store.specs.Layouts as y;
ghost use Rattle.f77_values.specs.Tables as n;
ghost use Rattle.prog_check.specs.Limits as l;
ghost use Rattle.call_cycles.specs.Marks as k;
ghost use Rattle.prog_check.specs.ProgramFaults as p;
ghost use Rattle.prog_check.specs.Scans as s;

use call_cycles::{ProgramMark, first_of, mark_at};
use f77_store::{layout, so_far};
use f77_tree::{List, Name, Unit, weight};
use f77_values::{Names, Table};
use std::alloc::{AllocError, Global};

/// What is summed over the units.
#[derive(Clone, Copy, Debug, Drop, PartialEq, Eq)]
pub enum Measure {
    Tokens,
    Weight,
}

fn limit_of(measure: Measure) -> u64
    ensures { result ≡ l.limit_of measure }
{
    match measure {
        Measure::Tokens => 500_000,
        Measure::Weight => 1_048_576,
    }
}

fn measured(measure: Measure, unit: &Unit) -> u64
    ensures { result ≡ min (l.measured measure unit.now) l.most }
{
    match measure {
        Measure::Tokens => unit.tokens as u64,
        Measure::Weight => weight(unit),
    }
}

fn passing(measure: Measure, units: &[Unit]) -> Option<ProgramMark>
    ensures { result ≡ s.passing (l.measured measure) (l.limit_of measure) 0 0 units.now }
{
    let limit = limit_of(measure);
    let mut sum = 0u64;
    for (place, unit) in units.iter().enumerate() {
        sum = sum.saturating_add(measured(measure, unit));
        if sum > limit {
            return Some(mark_at(37, limit, Some(place), 1));
        }
    }
    None
}

fn many_units(units: &[Unit]) -> Option<ProgramMark>
    ensures { k.Earliest (l.HasManyUnits units.now) result }
{
    if units.len() > 2000 {
        return Some(mark_at(37, 2000, Some(2000), 1));
    }
    None
}

/// The storage units of the units' local areas, and the COMMON blocks that they declare.
#[derive(Drop)]
struct Declared {
    local: u64,
    blocks: List<(Name, u32)>,
}

#[tactic(auto, using(prog_texts::proofs::Said::joined))]
fn push_blocks(
    alloc: Global,
    all: &mut List<(Name, u32)>,
    blocks: &List<(Name, u32)>,
) -> Result<(), AllocError>
    ensures { OnOk result (all.new ≡ all.old ++ blocks.now) }
{
    for block in blocks.as_slice() {
        let name = block.0.copy(alloc)?;
        all.push((name, block.1))?;
    }
    Ok(())
}

fn push_layout(alloc: Global, all: &mut List<(Name, u32)>, unit: &Unit) -> Result<u32, AllocError>
    ensures local { IfOk result (λ size. size ≡ y.local_size unit.now) }
    ensures blocks { OnOk result (all.new ≡ all.old ++ y.blocks unit.now) }
{
    let storage = layout(alloc, unit)?;
    push_blocks(alloc, all, &storage.blocks)?;
    Ok(storage.local_size)
}

fn gather(alloc: Global, units: &[Unit]) -> Result<Declared, AllocError>
    ensures local { IfOk result (λ d. d.local ≡ min (sum_by y.local_size units.now) l.most) }
    ensures blocks { IfOk result (λ d. d.blocks ≡ l.all_blocks units.now) }
{
    let mut local = 0u64;
    let mut blocks = List::new(alloc);
    for unit in units {
        let size = push_layout(alloc, &mut blocks, unit)?;
        local = local.saturating_add(size as u64);
    }
    Ok(Declared { local, blocks })
}

fn block_names(alloc: Global, all: &List<(Name, u32)>) -> Result<Names, AllocError>
    ensures { IfOk result (λ names. names ≡ n.distinct (map (λ m. m.0) all.now)) }
{
    let mut names = Names::new(alloc);
    for block in all.as_slice() {
        names.insert(block.0.copy(alloc)?)?;
    }
    Ok(names)
}

fn put_larger(alloc: Global, sizes: &mut Table<u32>, block: &(Name, u32)) -> Result<(), AllocError>
    ensures { OnOk result ((q : Lists ℕ) → b.so_far sizes.new q ≡ l.larger q (b.so_far sizes.old q) block.now) }
{
    let size = so_far(sizes, &block.0).max(block.1);
    let name = block.0.copy(alloc)?;
    sizes.insert(name, size)
}

fn largest(alloc: Global, all: &List<(Name, u32)>) -> Result<Table<u32>, AllocError>
    ensures { IfOk result (λ sizes. (q : Lists ℕ) → b.so_far sizes q ≡ l.largest all.now q) }
{
    let mut sizes = Table::new(alloc);
    for block in all.as_slice() {
        put_larger(alloc, &mut sizes, block)?;
    }
    Ok(sizes)
}

fn add_all(start: u64, sizes: &Table<u32>, names: &Names) -> u64
    ensures { result ≡ min (start + sum_by (b.so_far sizes.now) names.now) l.most }
{
    let mut sum = start;
    for name in names.as_slice() {
        sum = sum.saturating_add(so_far(sizes, name) as u64);
    }
    sum
}

fn storage(alloc: Global, units: &[Unit]) -> Result<u64, AllocError>
    ensures { IfOk result (λ size. size ≡ min (l.storage units.now) l.most) }
{
    let all = gather(alloc, units)?;
    let names = block_names(alloc, &all.blocks)?;
    let sizes = largest(alloc, &all.blocks)?;
    Ok(add_all(all.local, &sizes, &names))
}

fn much_storage(alloc: Global, units: &[Unit]) -> Result<Option<ProgramMark>, AllocError>
    ensures { IfOk result (λ mark. k.Earliest (l.HasMuchStorage units.now) mark) }
{
    let size = storage(alloc, units)?;
    if size > 16_777_216 {
        return Ok(Some(mark_at(37, 16_777_216, None, 0)));
    }
    Ok(None)
}

/// The first of the faults 37 of a program: its units, tokens, weight or storage are above their limits.
pub fn limit_fault(alloc: Global, units: &[Unit]) -> Result<Option<ProgramMark>, AllocError>
    ensures { IfOk result (λ mark. k.Earliest (p.LimitFaults units.now) mark) }
{
    let storage = much_storage(alloc, units)?;
    let weight = first_of(passing(Measure::Weight, units), storage);
    let tokens = first_of(passing(Measure::Tokens, units), weight);
    Ok(first_of(many_units(units), tokens))
}

//! Storage units of COMMON blocks that follow each other.
ghost use Rattle.std.specs.Prelude.{◌≡◌, ℕ, Option, Some, IfOk};
ghost use Rattle.std.specs.Option.{option_map};
ghost use Rattle.f77_tree.specs.declared.expr.Expr.{out-Expr};
ghost use Rattle.f77_values.specs.Tables.{what, saturated};
ghost use Rattle.check_common.specs.Storage as s;

use super::offsets::offset;
use super::places::Start;
use super::storage::Storage;
use f77_store::size_of;
use f77_tree::{Expr, List, Name, Value};
use f77_values::Table;
use std::alloc::{AllocError, Global};

/// So many storage units of a block from one on.
#[derive(Drop)]
pub struct Run {
    pub block: Name,
    pub from: u128,
    pub size: u32,
}

fn run_from(alloc: Global, block: &Name, from: u128, size: u32) -> Result<Run, AllocError>
    ensures { IfOk result (λ run. run ≡ s.run_from block.now from size) }
{
    Ok(Run {
        block: block.copy(alloc)?,
        from,
        size,
    })
}

fn whole_run(alloc: Global, storage: &Storage, name: &Name) -> Result<Option<Run>, AllocError>
    ensures { IfOk result (λ run. run ≡ s.whole_run storage.now name.now (what storage.now.starts name.now)) }
{
    match storage.starts.get(name) {
        Some(start) => {
            let size = size_of(&storage.shapes, name);
            let from = start.from.value();
            Ok(Some(run_from(alloc, &start.block, from, size)?))
        }
        None => Ok(None),
    }
}

fn offset_in(
    storage: &Storage,
    named: &Table<Value>,
    name: &Name,
    subscripts: &List<Expr>,
) -> Option<u32>
    ensures { result ≡ option_map saturated (s.offset_in storage.now named.now (what storage.now.shapes name.now) subscripts.now) }
{
    match storage.shapes.get(name) {
        Some(shape) => offset(
            &storage.constants,
            named,
            shape.bounds.as_slice(),
            subscripts.as_slice(),
        ),
        None => None,
    }
}

#[tactic(auto, using(crate::proofs::Elements::element_runs))]
fn at_offset(alloc: Global, start: &Start, offset: Option<u32>) -> Result<Option<Run>, AllocError>
    ensures { (k : Option ℕ) → offset ≡ option_map saturated k → IfOk result (λ run. run ≡ s.element_run (Some start.now) k) }
{
    match offset {
        Some(offset) => {
            let from = start.from.value() + offset as u128;
            Ok(Some(run_from(alloc, &start.block, from, 1)?))
        }
        None => Ok(None),
    }
}

fn element_run(
    alloc: Global,
    storage: &Storage,
    named: &Table<Value>,
    name: &Name,
    subscripts: &List<Expr>,
) -> Result<Option<Run>, AllocError>
    ensures { IfOk result (λ run. run ≡ s.element_run (what storage.now.starts name.now) (s.offset_in storage.now named.now (what storage.now.shapes name.now) subscripts.now)) }
{
    match storage.starts.get(name) {
        Some(start) => {
            let found = offset_in(storage, named, name, subscripts);
            at_offset(alloc, start, found)
        }
        None => Ok(None),
    }
}

/// The storage units of a COMMON block that an item of DATA stands for, under the named constants that are defined before it. There are
/// none where its name isn't in COMMON, or the element isn't in its array.
#[tactic(auto, using(crate::proofs::Gathering::joined))]
pub fn item_run(
    alloc: Global,
    storage: &Storage,
    named: &Table<Value>,
    item: &Expr,
) -> Result<Option<Run>, AllocError>
    ensures { IfOk result (λ run. run ≡ s.item_run storage.now named.now (out-Expr item.now)) }
{
    match item {
        Expr::Scalar(name) => whole_run(alloc, storage, name),
        Expr::Apply(name, list) => element_run(alloc, storage, named, name, list),
        _ => Ok(None),
    }
}

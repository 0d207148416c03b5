//! Marks of the local cells that a unit keeps, and of its dummies that are arrays.
ghost use Rattle.std.specs.Prelude.{◌≡◌, ℕ, ◌≤◌, ◌||◌, length, map, IfOk, OnOk};
ghost use Rattle.f77_semantics.specs.Units.{is_kept};
ghost use Rattle.interp_cells.specs.Rows.{is_marked};
ghost use Rattle.interp_lower.specs.Routines.{dummy_of};
ghost use Rattle.f77_meaning.specs.Marks as m;

use f77_semantics::Kept;
use f77_tree::List;
use interp_lower::DummyArray;
use std::alloc::{AllocError, Global};

fn make_room(marks: &mut Vec<bool>, end: usize) -> Result<(), AllocError>
    ensures same { OnOk result ((k : ℕ) → is_marked marks.new.items k ≡ is_marked marks.old.items k) }
    ensures room { OnOk result (end ≤ length marks.new.items) }
{
    if marks.len() < end {
        marks.resize(end, false)?;
    }
    Ok(())
}

fn mark(marks: &mut Vec<bool>, from: usize, length: usize) -> Result<(), AllocError>
    ensures { OnOk result ((k : ℕ) → is_marked marks.new.items k ≡ (m.is_between from length k || is_marked marks.old.items k)) }
{
    let end = from.checked_add(length).ok_or(AllocError)?;
    make_room(marks, end)?;
    for k in from..end {
        marks[k] = true;
    }
    Ok(())
}

/// Marks of the local cells that are kept.
pub fn kept_marks(alloc: Global, kept: &List<Kept>) -> Result<Vec<bool>, AllocError>
    ensures { IfOk result (λ marks. (k : ℕ) → is_marked marks.items k ≡ is_kept kept.now k) }
{
    let mut marks = Vec::new(alloc);
    for cells in kept.as_slice() {
        mark(&mut marks, cells.from as usize, cells.length as usize)?;
    }
    Ok(marks)
}

/// Marks of the dummies that are arrays.
pub fn array_marks(alloc: Global, arrays: &List<DummyArray>) -> Result<Vec<bool>, AllocError>
    ensures { IfOk result (λ marks. (j : ℕ) → is_marked marks.items j ≡ m.is_dimensioned (map dummy_of arrays.now) j) }
{
    let mut marks = Vec::new(alloc);
    for array in arrays.as_slice() {
        mark(&mut marks, array.dummy, 1)?;
    }
    Ok(marks)
}

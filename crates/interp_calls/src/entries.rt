//! The entry of a unit: its local cells are cleared, and its dummies stand for the actual arguments.
ghost use Rattle.std.specs.Prelude.{◌≡◌, map, IfOk};
ghost use Rattle.f77_semantics.specs.Expressions as ex;
ghost use Rattle.f77_semantics.specs.Units as r;
ghost use Rattle.interp_steps.specs.Frames.{interval_of, frame_of};
ghost use Rattle.interp_steps.specs.Worlds.{world_of};
ghost use Rattle.interp_calls.specs.Entries as e;
ghost use Rattle.interp_calls.specs.Procedures as p;
ghost use Rattle.interp_cells.specs.Rows as rows;

use super::procedure::Procedure;
use interp_steps::{Frame, Interval, State};
use std::alloc::{AllocError, Global};

fn is_marked(marks: &[bool], at: usize) -> bool
    ensures { result ≡ rows.is_marked marks.now at }
{
    match marks.get(at) {
        Some(marked) => *marked,
        None => false,
    }
}

fn only_first(i: Interval) -> Interval
    ensures { interval_of result ≡ ex.only_first (interval_of i.entry) }
{
    Interval {
        area: i.area,
        from: i.from,
        length: 1,
    }
}

// A dummy that is no array is one location.
fn associated<'p>(
    alloc: Global,
    arrays: &[bool],
    actuals: &[Interval<'p>],
) -> Result<Vec<Interval<'p>>, AllocError>
    ensures { IfOk result (λ all. map interval_of all.items ≡ e.associated_by arrays.now 0 (map interval_of actuals.now)) }
{
    let mut all = Vec::with_capacity(alloc, actuals.len())?;
    for j in 0..actuals.len() {
        if is_marked(arrays, j) {
            all.push(actuals[j])?;
        } else {
            all.push(only_first(actuals[j]))?;
        }
    }
    Ok(all)
}

/// An activation of a unit on actual arguments, before the shapes of its dummy arrays are known.
pub fn entered<'p, 'u>(
    alloc: Global,
    procedure: &'p Procedure<'u>,
    actuals: &[Interval<'p>],
) -> Result<Frame<'p>, AllocError>
    ensures { p.InEach procedure.now (λ u. IfOk result (λ f. frame_of f ≡ r.entered u (map interval_of actuals.now))) }
{
    let actuals = associated(alloc, procedure.arrays.as_slice(), actuals)?;
    Ok(Frame {
        unit: &procedure.routine.name,
        actuals,
        shapes: Vec::new(alloc),
    })
}

/// Makes the cells of a unit undefined that it doesn't keep.
pub fn clear(procedure: &Procedure, state: &mut State)
    ensures cleared { p.InEach procedure.now (λ u. world_of state.new ≡ r.cleared u (world_of state.old)) }
    ensures printed { state.new.out ≡ state.old.out }
{
    state
        .storage
        .clear(&procedure.routine.name, procedure.kept.as_slice());
}

//! The shapes of an activation's dummy arrays.
ghost use Rattle.std.specs.Prelude.{◌≡◌, ℕ, ◌<◌, length, map, OnOk};
ghost use Rattle.f77_semantics.specs.Units.{with_shape};
ghost use Rattle.interp_steps.specs.Frames.{frame_of, shape_at};
ghost use Rattle.interp_steps.specs.Stacks.{stack_of};
ghost use Rattle.interp_steps.specs.Stops.{Gives};
ghost use Rattle.interp_calls.specs.Entries as e;

use super::bounds::shaped;
use f77_semantics::Extent;
use f77_tree::List;
use interp_steps::{Frame, Operand, Stop};
use std::alloc::{AllocError, Global};

fn make_room(shapes: &mut Vec<Option<List<Extent>>>, dummy: usize) -> Result<(), AllocError>
    ensures same { OnOk result ((k : ℕ) → shape_at shapes.new.items k ≡ shape_at shapes.old.items k) }
    ensures room { OnOk result (dummy < length shapes.new.items) }
{
    'room: while shapes.len() <= dummy {
        shapes.push(None)?;
    }
    Ok(())
}

fn set_shape(frame: &mut Frame, dummy: usize, shape: List<Extent>) -> Result<(), AllocError>
    ensures { OnOk result (frame_of frame.new ≡ with_shape dummy shape (frame_of frame.old)) }
{
    make_room(&mut frame.shapes, dummy)?;
    frame.shapes[dummy] = Some(shape);
    Ok(())
}

// How many storage units the actual argument of a dummy has.
fn long(frame: &Frame, dummy: usize) -> usize
    ensures { result ≡ e.long (frame_of frame.now) dummy }
{
    match frame.actuals.get(dummy) {
        Some(actual) => actual.length,
        None => 1,
    }
}

/// Fixes the shape of a dummy array by the operands that the steps of its bounds left.
pub fn fix_shape(
    alloc: Global,
    frame: &mut Frame,
    dummy: usize,
    operands: &Vec<Operand>,
) -> Result<(), Stop>
    ensures { Gives result (λ _. frame_of frame.new) (e.fixed (frame_of frame.old) dummy (stack_of operands.now.items)) }
{
    match shaped(alloc, long(frame, dummy) as u64, operands.as_slice()) {
        Ok(shape) => {
            set_shape(frame, dummy, shape)?;
            Ok(())
        }
        Err(stop) => Err(stop),
    }
}

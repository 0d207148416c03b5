//! Steps that store to a cell.
ghost use Rattle.std.specs.Prelude.{◌≡◌};
ghost use Rattle.run_model.specs.Acts as a;
ghost use Rattle.f77_semantics.specs.Expressions as e;
ghost use Rattle.interp_code.specs.Steps as c;
ghost use Rattle.interp_steps.specs.Frames.{frame_of, interval_of};
ghost use Rattle.interp_steps.specs.Moves.{Moves};
ghost use Rattle.interp_steps.specs.Stacks.{stack_of};
ghost use Rattle.interp_code.specs.declared.step.Step.TheVariants.{Hold, TakeIn};

use super::frame::{Frame, Interval, fresh, spot_at};
use super::operand::{Operand, pop_item, pop_place, push};
use super::state::State;
use super::stop::Stop;
use f77_tree::Value;
use std::alloc::Global;

// Stores a value to the first cell of an interval, and puts the interval on the stack.
fn hold<'a>(
    alloc: Global,
    i: Interval<'a>,
    value: Value,
    stack: &mut Vec<Operand<'a>>,
    state: &mut State,
) -> Result<(), Stop>
    ensures moves { Moves result stack.new.items state.old state.new (a.and_then (e.store (e.at (interval_of i.entry) 0) value) (λ _. c.push (stack_of stack.old.items) (c.Passed (interval_of i.entry)))) }
    ensures printed { state.new.out ≡ state.old.out }
{
    let spot = spot_at(i, 0)?;
    match state.store(alloc, spot, value) {
        Ok(()) => {
            push(stack, Operand::Passed(i))?;
            Ok(())
        }
        Err(stop) => Err(stop),
    }
}

/// A value as an actual argument: its cell is a new one.
pub fn hold_step<'a>(
    alloc: Global,
    frame: &Frame<'a>,
    site: usize,
    position: usize,
    stack: &mut Vec<Operand<'a>>,
    state: &mut State,
) -> Result<(), Stop>
    ensures moves { Moves result stack.new.items state.old state.new (c.step (frame_of frame.now) (Hold site position) (stack_of stack.old.items)) }
    ensures printed { state.new.out ≡ state.old.out }
{
    match pop_item(stack) {
        Some(value) => hold(alloc, fresh(frame, site, position), value, stack, state),
        None => Err(Stop::Stuck),
    }
}

/// The next integer of the input, read into the location on the stack.
pub fn take_step(alloc: Global, stack: &mut Vec<Operand>, state: &mut State) -> Result<(), Stop>
    ensures moves { (f : e.Frame) → Moves result stack.new.items state.old state.new (c.step f TakeIn (stack_of stack.old.items)) }
    ensures printed { state.new.out ≡ state.old.out }
{
    match pop_place(stack) {
        Some(spot) => state.take_into(alloc, spot),
        None => Err(Stop::Stuck),
    }
}

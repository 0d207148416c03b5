//! Steps that read a cell.
ghost use Rattle.std.specs.Prelude.{◌≡◌};
ghost use Rattle.run_model.specs.Acts as a;
ghost use Rattle.f77_tree.specs.declared.unit.Value as spec;
ghost use Rattle.f77_semantics.specs.Expressions as e;
ghost use Rattle.interp_code.specs.Steps as c;
ghost use Rattle.interp_steps.specs.Frames.{frame_of};
ghost use Rattle.interp_steps.specs.Moves.{Moves};
ghost use Rattle.interp_steps.specs.Stacks.{stack_of};
ghost use Rattle.interp_steps.specs.Stops.{Ends};
ghost use Rattle.interp_code.specs.declared.step.Step.TheVariants.{Fetch, Load};

use super::frame::{Frame, scalar};
use super::operand::{Operand, pop_place, push};
use super::state::State;
use super::stop::Stop;
use f77_semantics::Base;
use f77_tree::{Ty, Value};

// Puts a value that there is on the stack.
fn push_value(stack: &mut Vec<Operand>, value: Result<Value, Stop>) -> Result<(), Stop>
    ensures { (h : a.Handler) → (act : a.Act spec.Value) → (w v : a.World) → Ends value (λ x. x) v (a.play h act w) → Ends result (λ _. stack_of stack.new.items) v (a.play h (a.and_then act (c.push_item (stack_of stack.old.items))) w) }
{
    match value {
        Ok(value) => {
            push(stack, Operand::Item(value))?;
            Ok(())
        }
        Err(stop) => Err(stop),
    }
}

/// The value of a variable.
pub fn fetch_step<'a>(
    frame: &Frame<'a>,
    ty: Ty,
    base: &'a Base,
    stack: &mut Vec<Operand<'a>>,
    state: &State,
) -> Result<(), Stop>
    ensures { Moves result stack.new.items state.now state.now (c.step (frame_of frame.now) (Fetch ty base.now) (stack_of stack.old.items)) }
{
    let spot = scalar(frame, base)?;
    push_value(stack, state.fetch(ty, spot))
}

/// The value at the location on the stack.
pub fn load_step(ty: Ty, stack: &mut Vec<Operand>, state: &State) -> Result<(), Stop>
    ensures { (f : e.Frame) → Moves result stack.new.items state.now state.now (c.step f (Load ty) (stack_of stack.old.items)) }
{
    match pop_place(stack) {
        Some(spot) => push_value(stack, state.fetch(ty, spot)),
        None => Err(Stop::Stuck),
    }
}

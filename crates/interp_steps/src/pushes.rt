//! Steps that put an operand on the stack without a look at the others.
ghost use Rattle.std.specs.Prelude.{◌≡◌};
ghost use Rattle.f77_semantics.specs.Expressions as e;
ghost use Rattle.interp_code.specs.Steps as c;
ghost use Rattle.interp_steps.specs.Frames.{frame_of};
ghost use Rattle.interp_steps.specs.Stacks.{stack_of};
ghost use Rattle.interp_steps.specs.Stops.{Gives};
ghost use Rattle.interp_code.specs.declared.step.Step.TheVariants.{Aim, Open, Pass, PassWhole, Push, Show};

use super::frame::{Frame, placed, scalar, sequence};
use super::operand::{Operand, push};
use super::stop::Stop;
use f77_semantics::{Array, Base};
use f77_tree::{List, Value};

/// A value.
pub fn push_step(value: Value, stack: &mut Vec<Operand>) -> Result<(), Stop>
    ensures { (f : e.Frame) → Gives result (λ _. stack_of stack.new.items) (c.step f (Push value) (stack_of stack.old.items)) }
{
    push(stack, Operand::Item(value))?;
    Ok(())
}

/// A literal of PRINT.
pub fn show_step<'a>(bytes: &'a List<u8>, stack: &mut Vec<Operand<'a>>) -> Result<(), Stop>
    ensures { (f : e.Frame) → Gives result (λ _. stack_of stack.new.items) (c.step f (Show bytes.now) (stack_of stack.old.items)) }
{
    push(stack, Operand::Bytes(bytes.as_slice()))?;
    Ok(())
}

/// The mark on which the operands of a list stand.
pub fn open_step(stack: &mut Vec<Operand>) -> Result<(), Stop>
    ensures { (f : e.Frame) → Gives result (λ _. stack_of stack.new.items) (c.step f Open (stack_of stack.old.items)) }
{
    push(stack, Operand::Mark)?;
    Ok(())
}

/// The location of a variable.
pub fn aim_step<'a>(
    frame: &Frame<'a>,
    base: &'a Base,
    stack: &mut Vec<Operand<'a>>,
) -> Result<(), Stop>
    ensures { Gives result (λ _. stack_of stack.new.items) (c.step (frame_of frame.now) (Aim base.now) (stack_of stack.old.items)) }
{
    let spot = scalar(frame, base)?;
    push(stack, Operand::Place(spot))?;
    Ok(())
}

/// A variable as an actual argument.
pub fn pass_step<'a>(
    frame: &Frame<'a>,
    base: &'a Base,
    stack: &mut Vec<Operand<'a>>,
) -> Result<(), Stop>
    ensures { Gives result (λ _. stack_of stack.new.items) (c.step (frame_of frame.now) (Pass base.now) (stack_of stack.old.items)) }
{
    push(stack, Operand::Passed(placed(frame, base, 1)))?;
    Ok(())
}

/// An array as an actual argument.
pub fn whole_step<'a>(
    frame: &Frame<'a>,
    array: &'a Array,
    stack: &mut Vec<Operand<'a>>,
) -> Result<(), Stop>
    ensures { Gives result (λ _. stack_of stack.new.items) (c.step (frame_of frame.now) (PassWhole array.now) (stack_of stack.old.items)) }
{
    push(stack, Operand::Passed(sequence(frame, array)))?;
    Ok(())
}

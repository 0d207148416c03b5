//! Steps on values alone.
ghost use Rattle.std.specs.Prelude.{◌≡◌};
ghost use Rattle.run_model.specs.Acts.{and_then};
ghost use Rattle.f77_tree.specs.declared.unit.Value.TheVariants.{Integer};
ghost use Rattle.interp_code.specs.Steps as c;
ghost use Rattle.f77_semantics.specs.Expressions as e;
ghost use Rattle.f77_semantics.specs.Values as v;
ghost use Rattle.interp_steps.specs.Frames.{frame_of};
ghost use Rattle.interp_steps.specs.Stacks.{stack_of};
ghost use Rattle.interp_steps.specs.Stops.{Gives};
ghost use Rattle.interp_code.specs.declared.step.Step.TheVariants.{Compute, Deny, Keep, Locate, Negate, Number, Operate, PassRest};

use super::elements::{element, integers};
use super::frame::{Frame, rest, sequence, spot_at};
use super::intrinsics::intrinsic;
use super::operand::{Operand, pop_item, pop_items, push};
use super::stop::Stop;
use super::value::{as_number, operated, or_stuck};
use f77_names::Intrinsic;
use f77_semantics::Array;
use f77_tree::{Op, Value};
use f77_values::{deny, keep, negate};
use std::alloc::Global;

/// The value of an operator between two values.
pub fn operate_step(op: Op, stack: &mut Vec<Operand>) -> Result<(), Stop>
    ensures { (f : e.Frame) → Gives result (λ _. stack_of stack.new.items) (c.step f (Operate op) (stack_of stack.old.items)) }
{
    let y = pop_item(stack).ok_or(Stop::Stuck)?;
    let x = pop_item(stack).ok_or(Stop::Stuck)?;
    let z = operated(op, x, y)?;
    push(stack, Operand::Item(z))?;
    Ok(())
}

/// A value that is to be an integer.
pub fn keep_step(stack: &mut Vec<Operand>) -> Result<(), Stop>
    ensures { (f : e.Frame) → Gives result (λ _. stack_of stack.new.items) (c.step f Keep (stack_of stack.old.items)) }
{
    let x = pop_item(stack).ok_or(Stop::Stuck)?;
    let z = or_stuck(keep(x))?;
    push(stack, Operand::Item(z))?;
    Ok(())
}

/// A value with its sign changed.
pub fn negate_step(stack: &mut Vec<Operand>) -> Result<(), Stop>
    ensures { (f : e.Frame) → Gives result (λ _. stack_of stack.new.items) (c.step f Negate (stack_of stack.old.items)) }
{
    let x = pop_item(stack).ok_or(Stop::Stuck)?;
    let z = or_stuck(negate(x))?;
    push(stack, Operand::Item(z))?;
    Ok(())
}

/// The other truth value.
pub fn deny_step(stack: &mut Vec<Operand>) -> Result<(), Stop>
    ensures { (f : e.Frame) → Gives result (λ _. stack_of stack.new.items) (c.step f Deny (stack_of stack.old.items)) }
{
    let x = pop_item(stack).ok_or(Stop::Stuck)?;
    let z = or_stuck(deny(x))?;
    push(stack, Operand::Item(z))?;
    Ok(())
}

/// A value that is to be a number.
pub fn number_step(stack: &mut Vec<Operand>) -> Result<(), Stop>
    ensures { (f : e.Frame) → Gives result (λ _. stack_of stack.new.items) (c.step f Number (stack_of stack.old.items)) }
{
    let x = pop_item(stack).ok_or(Stop::Stuck)?;
    let n = as_number(x)?;
    push(stack, Operand::Item(Value::Integer(n)))?;
    Ok(())
}

// Puts the location of an element on the stack.
fn push_place<'a>(
    alloc: Global,
    frame: &Frame<'a>,
    array: &'a Array,
    values: &[Value],
    stack: &mut Vec<Operand<'a>>,
) -> Result<(), Stop>
    ensures { Gives result (λ _. stack_of stack.new.items) (and_then (e.element (frame_of frame.now) array.now values.now) (λ k. c.push (stack_of stack.old.items) (c.Place (e.at (e.sequence (frame_of frame.now) array.now) k)))) }
{
    let k = element(alloc, frame, array, values)?;
    let spot = spot_at(sequence(frame, array), k)?;
    push(stack, Operand::Place(spot))?;
    Ok(())
}

// Puts the rest of an array from an element on on the stack.
fn push_rest<'a>(
    alloc: Global,
    frame: &Frame<'a>,
    array: &'a Array,
    values: &[Value],
    stack: &mut Vec<Operand<'a>>,
) -> Result<(), Stop>
    ensures { Gives result (λ _. stack_of stack.new.items) (and_then (e.element (frame_of frame.now) array.now values.now) (λ k. c.push (stack_of stack.old.items) (c.Passed (e.rest (e.sequence (frame_of frame.now) array.now) k)))) }
{
    let k = element(alloc, frame, array, values)?;
    let left = rest(sequence(frame, array), k)?;
    push(stack, Operand::Passed(left))?;
    Ok(())
}

/// The location of an element, by the subscripts on the stack.
pub fn locate_step<'a>(
    alloc: Global,
    frame: &Frame<'a>,
    array: &'a Array,
    stack: &mut Vec<Operand<'a>>,
) -> Result<(), Stop>
    ensures { Gives result (λ _. stack_of stack.new.items) (c.step (frame_of frame.now) (Locate array.now) (stack_of stack.old.items)) }
{
    let subscripts = pop_items(alloc, stack)?.ok_or(Stop::Stuck)?;
    push_place(alloc, frame, array, subscripts.as_slice(), stack)
}

/// The rest of an array from an element on, by the subscripts on the stack.
pub fn rest_step<'a>(
    alloc: Global,
    frame: &Frame<'a>,
    array: &'a Array,
    stack: &mut Vec<Operand<'a>>,
) -> Result<(), Stop>
    ensures { Gives result (λ _. stack_of stack.new.items) (c.step (frame_of frame.now) (PassRest array.now) (stack_of stack.old.items)) }
{
    let subscripts = pop_items(alloc, stack)?.ok_or(Stop::Stuck)?;
    push_rest(alloc, frame, array, subscripts.as_slice(), stack)
}

// Puts the value of an intrinsic function on the stack.
fn push_computed(
    alloc: Global,
    which: Intrinsic,
    values: &[Value],
    stack: &mut Vec<Operand>,
) -> Result<(), Stop>
    ensures { Gives result (λ _. stack_of stack.new.items) (and_then (e.integers values.now) (λ xs. and_then (v.intrinsic which xs) (λ x. c.push_item (stack_of stack.old.items) (Integer x)))) }
{
    let numbers = integers(alloc, values)?;
    let x = intrinsic(which, numbers.as_slice())?;
    push(stack, Operand::Item(Value::Integer(x)))?;
    Ok(())
}

/// The value of an intrinsic function of the values on the stack.
pub fn compute_step(alloc: Global, which: Intrinsic, stack: &mut Vec<Operand>) -> Result<(), Stop>
    ensures { (f : e.Frame) → Gives result (λ _. stack_of stack.new.items) (c.step f (Compute which) (stack_of stack.old.items)) }
{
    let values = pop_items(alloc, stack)?.ok_or(Stop::Stuck)?;
    push_computed(alloc, which, values.as_slice(), stack)
}

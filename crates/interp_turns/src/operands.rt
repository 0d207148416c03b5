//! The operands that the ends of statements take.
ghost use Rattle.std.specs.Prelude.{◌≡◌, None, Some, MatchOption};
ghost use Rattle.interp_cells.specs.Spots.{loc_of};
ghost use Rattle.interp_code.specs.Steps.{item_on, place_on};
ghost use Rattle.interp_steps.specs.Stacks.{stack_of};
ghost use Rattle.interp_steps.specs.Stops.{Gives};
ghost use Rattle.interp_turns.specs.Operands as o;

use f77_tree::Value;
use interp_cells::Spot;
use interp_steps::{Operand, Stop, as_number, as_truth};

// The value on top, and what stands below.
#[tactic(auto, using(interp_steps::proofs::Tops::pushed))]
fn item_on<'s, 'a>(stack: &'s [Operand<'a>]) -> Option<(Value, &'s [Operand<'a>])>
    ensures { MatchOption result (item_on (stack_of stack.now) ≡ None) (λ p. item_on (stack_of stack.now) ≡ Some (p.0, stack_of p.1.now)) }
{
    match stack.split_last() {
        Some((Operand::Item(value), below)) => Some((*value, below)),
        _ => None,
    }
}

// The location on top, and what stands below.
#[tactic(auto, using(interp_steps::proofs::Tops::pushed))]
fn place_on<'s, 'a>(stack: &'s [Operand<'a>]) -> Option<(Spot<'a>, &'s [Operand<'a>])>
    ensures { MatchOption result (place_on (stack_of stack.now) ≡ None) (λ p. place_on (stack_of stack.now) ≡ Some (loc_of p.0, stack_of p.1.now)) }
{
    match stack.split_last() {
        Some((Operand::Place(spot), below)) => Some((*spot, below)),
        _ => None,
    }
}

/// No operand is left.
#[tactic(auto, using(interp_steps::proofs::Tops::pushed))]
pub fn nothing(stack: &[Operand]) -> Result<(), Stop>
    ensures { Gives result (λ _. tt) (o.nothing (stack_of stack.now)) }
{
    match stack.split_last() {
        Some(_) => Err(Stop::Stuck),
        None => Ok(()),
    }
}

/// A value over a location.
pub fn assigned<'a>(stack: &[Operand<'a>]) -> Result<(Value, Spot<'a>), Stop>
    ensures { Gives result (λ p. (p.0, loc_of p.1)) (o.assigned (stack_of stack.now)) }
{
    let (value, below) = item_on(stack).ok_or(Stop::Stuck)?;
    let (spot, below) = place_on(below).ok_or(Stop::Stuck)?;
    nothing(below)?;
    Ok((value, spot))
}

/// A truth value alone.
pub fn truth(stack: &[Operand]) -> Result<bool, Stop>
    ensures { Gives result (λ b. b) (o.truth (stack_of stack.now)) }
{
    let (value, below) = item_on(stack).ok_or(Stop::Stuck)?;
    nothing(below)?;
    as_truth(value)
}

/// A number alone.
pub fn number(stack: &[Operand]) -> Result<i64, Stop>
    ensures { Gives result (λ n. n) (o.number (stack_of stack.now)) }
{
    let (value, below) = item_on(stack).ok_or(Stop::Stuck)?;
    nothing(below)?;
    as_number(value)
}

// The number on top, and what stands below.
fn number_on<'s, 'a>(stack: &'s [Operand<'a>]) -> Result<(i64, &'s [Operand<'a>]), Stop>
    ensures { Gives result (λ p. (p.0, stack_of p.1.now)) (o.number_on (stack_of stack.now)) }
{
    let (value, below) = item_on(stack).ok_or(Stop::Stuck)?;
    let n = as_number(value)?;
    Ok((n, below))
}

/// Three numbers alone, the lowest first.
pub fn three(stack: &[Operand]) -> Result<(i64, i64, i64), Stop>
    ensures { Gives result (λ p. p) (o.three (stack_of stack.now)) }
{
    let (step, below) = number_on(stack)?;
    let (last, below) = number_on(below)?;
    let (first, below) = number_on(below)?;
    nothing(below)?;
    Ok((first, last, step))
}

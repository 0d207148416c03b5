//! Operands of steps.
ghost use Rattle.std.specs.Prelude.{◌≡◌, ◌∷◌, [], None, Some, MatchOption, IfOk, OnOk, map};
ghost use Rattle.interp_code.specs.Steps.{item_on, place_on, items_above, passed_above};
ghost use Rattle.interp_cells.specs.Spots.{loc_of};
ghost use Rattle.interp_steps.specs.Frames.{interval_of};
ghost use Rattle.interp_steps.specs.Stacks.{operand_of, stack_of};

use super::frame::Interval;
use f77_tree::{List, Value};
use interp_cells::Spot;
use std::alloc::{AllocError, Global};

/// A value, a location, an actual argument, a literal of PRINT, and what the operands of a list stand on.
#[derive(Clone, Copy, Drop)]
pub enum Operand<'a> {
    Item(Value),
    Place(Spot<'a>),
    Passed(Interval<'a>),
    Bytes(&'a [u8]),
    Mark,
}

/// Puts an operand on top.
#[tactic(auto, using(crate::proofs::Tops::pushed))]
pub fn push<'a>(stack: &mut Vec<Operand<'a>>, operand: Operand<'a>) -> Result<(), AllocError>
    ensures { OnOk result (stack_of stack.new.items ≡ operand_of operand.entry ∷ stack_of stack.old.items) }
{
    stack.push(operand)?;
    Ok(())
}

/// Takes the value on top.
#[tactic(auto, using(crate::proofs::Tops::pushed))]
pub fn pop_item(stack: &mut Vec<Operand>) -> Option<Value>
    ensures { MatchOption result (item_on (stack_of stack.old.items) ≡ None) (λ v. item_on (stack_of stack.old.items) ≡ Some (v, stack_of stack.new.items)) }
{
    match stack.pop() {
        Some(Operand::Item(value)) => Some(value),
        _ => None,
    }
}

/// Takes the location on top.
#[tactic(auto, using(crate::proofs::Tops::pushed))]
pub fn pop_place<'a>(stack: &mut Vec<Operand<'a>>) -> Option<Spot<'a>>
    ensures { MatchOption result (place_on (stack_of stack.old.items) ≡ None) (λ l. place_on (stack_of stack.old.items) ≡ Some (loc_of l, stack_of stack.new.items)) }
{
    match stack.pop() {
        Some(Operand::Place(spot)) => Some(spot),
        _ => None,
    }
}

/// Takes the values above the last mark, and the mark.
pub fn pop_items(alloc: Global, stack: &mut Vec<Operand>) -> Result<Option<List<Value>>, AllocError>
    ensures { IfOk result (λ found. MatchOption found (items_above (stack_of stack.old.items) [] ≡ None) (λ all. items_above (stack_of stack.old.items) [] ≡ Some (all, stack_of stack.new.items))) }
{
    let mut found = Vec::new(alloc);
    while let Some(top) = stack.pop() {
        match top {
            Operand::Item(value) => found.push(value)?,
            Operand::Mark => {
                found.reverse();
                return Ok(Some(List::from_vec(found)));
            }
            _ => return Ok(None),
        }
    }
    Ok(None)
}

/// Takes the actual arguments above the last mark, and the mark.
pub fn pop_passed<'a>(
    alloc: Global,
    stack: &mut Vec<Operand<'a>>,
) -> Result<Option<Vec<Interval<'a>>>, AllocError>
    ensures { IfOk result (λ found. MatchOption found (passed_above (stack_of stack.old.items) [] ≡ None) (λ all. passed_above (stack_of stack.old.items) [] ≡ Some (map interval_of all.items, stack_of stack.new.items))) }
{
    let mut found = Vec::new(alloc);
    while let Some(top) = stack.pop() {
        match top {
            Operand::Passed(interval) => found.push(interval)?,
            Operand::Mark => {
                found.reverse();
                return Ok(Some(found));
            }
            _ => return Ok(None),
        }
    }
    Ok(None)
}

//! What a call gives back.
ghost use Rattle.std.specs.Prelude.{option_map};
ghost use Rattle.run_model.specs.Acts.{and_then};
ghost use Rattle.f77_semantics.specs.Expressions.{resulting};
ghost use Rattle.f77_semantics.specs.Values.{stored};
ghost use Rattle.interp_code.specs.Steps as c;
ghost use Rattle.interp_steps.specs.Stacks.{stack_of};
ghost use Rattle.interp_steps.specs.Stops.{Gives};

use super::operand::{Operand, push};
use super::stop::Stop;
use f77_tree::Value;

/// Puts the result of a function on the stack.
#[tactic(auto, using(crate::proofs::Cells::seen_stored))]
pub fn push_answer(answer: Option<Value>, stack: &mut Vec<Operand>) -> Result<(), Stop>
    ensures { Gives result (λ _. stack_of stack.new.items) (and_then (resulting (option_map stored answer)) (c.push_item (stack_of stack.old.items))) }
{
    let value = answer.ok_or(Stop::Stuck)?;
    push(stack, Operand::Item(value))?;
    Ok(())
}

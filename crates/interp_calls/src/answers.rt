//! What steps make of the answers of calls.
ghost use Rattle.std.specs.Prelude.{◌≡◌, ℕ, List, Option, Err};
ghost use Rattle.run_model.specs.Acts as a;
ghost use Rattle.f77_semantics.specs.Expressions as e;
ghost use Rattle.interp_code.specs.Steps as s;
ghost use Rattle.interp_steps.specs.Stacks.{stack_of};
ghost use Rattle.interp_calls.specs.Behind.{AllAppend};
ghost use Rattle.interp_calls.specs.Calls as c;
ghost use Rattle.interp_calls.specs.Sending.{IsWhole, Sends};
ghost use Rattle.interp_code.specs.declared.step.Step.TheVariants.{Perform, Refer};

use super::halt::Halt;
use super::sending::halting;
use f77_tree::Value;
use interp_steps::{Operand, push_answer};

/// Puts the result of a function that was called at a site on the stack.
pub fn referred(answer: Result<Option<Value>, Halt>, stack: &mut Vec<Operand>) -> Result<(), Halt>
    ensures run { (h : a.Handler) → AllAppend h → (f : e.Frame) → (site : ℕ) → (old : s.Operands)
        → (before after : a.World) → (then now : Option (List ℕ)) → c.Answers answer h site old (stack_of stack.old.items) before after then now
        → Sends result (λ _. a.Fine (stack_of stack.new.items)) before after then now (a.play h (s.step f (Refer site) old)) }
    ensures whole { IsWhole result → IsWhole answer }
    ensures fault { result ≡ Err Halt.WriteFault → answer ≡ Err Halt.WriteFault }
{
    match answer {
        Ok(value) => halting(push_answer(value, stack)),
        Err(halt) => Err(halt),
    }
}

/// Goes on behind the call of a subroutine.
pub fn performed(answer: Result<Option<Value>, Halt>) -> Result<(), Halt>
    ensures run { (h : a.Handler) → (f : e.Frame) → (site : ℕ) → (old new : s.Operands) → (before after : a.World) → (then now : Option (List ℕ))
        → c.Answers answer h site old new before after then now
        → Sends result (λ _. a.Fine new) before after then now (a.play h (s.step f (Perform site) old)) }
    ensures whole { IsWhole result → IsWhole answer }
    ensures fault { result ≡ Err Halt.WriteFault → answer ≡ Err Halt.WriteFault }
{
    match answer {
        Ok(_) => Ok(()),
        Err(halt) => Err(halt),
    }
}

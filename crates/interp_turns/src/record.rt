//! The record that PRINT writes.
ghost use Rattle.std.specs.Prelude.{◌≡◌, ◌++◌, OnOk, IfOk, map};
ghost use Rattle.f77_semantics.specs.Statements.{written};
ghost use Rattle.interp_steps.specs.Stacks.{operand_of};
ghost use Rattle.interp_steps.specs.Worlds.{world_of};
ghost use Rattle.interp_turns.specs.Records as r;

use f77_tree::Value;
use interp_steps::{Operand, State};
use itoa::Buffer;
use std::alloc::AllocError;

fn say_value(value: Value, state: &mut State) -> Result<(), AllocError>
    ensures { OnOk result (world_of state.new ≡ record (world_of state.old) { out = state.old.out.items ++ written value }) }
{
    match value {
        Value::Integer(n) => state.say(Buffer::new().format(n).as_bytes()),
        Value::Logical(true) => state.say(b"T"),
        Value::Logical(false) => state.say(b"F"),
    }
}

// Writes an operand behind a blank, and says whether it has a text.
#[tactic(auto, using(std::proofs::lemmas::List::append_assoc))]
fn say_operand(operand: &Operand, state: &mut State) -> Result<bool, AllocError>
    ensures world { OnOk result (world_of state.new ≡ record (world_of state.old) { out = state.old.out.items ++ r.text (operand_of operand.now) }) }
    ensures shown { IfOk result (λ any. any ≡ r.is_shown (operand_of operand.now)) }
{
    match operand {
        Operand::Item(value) => {
            state.say(b" ")?;
            say_value(*value, state)?;
            Ok(true)
        }
        Operand::Bytes(bytes) => {
            state.say(b" ")?;
            state.say(bytes)?;
            Ok(true)
        }
        _ => Ok(false),
    }
}

/// Writes what is left of a record, of which there is something already or not.
#[tactic(auto, using(std::proofs::lemmas::List::append_assoc))]
pub fn say_record_from(any: bool, operands: &[Operand], state: &mut State) -> Result<(), AllocError>
    ensures { OnOk result (world_of state.new ≡ record (world_of state.old) { out = state.old.out.items ++ r.record_from any (map operand_of operands.now) }) }
{
    match operands.split_first() {
        None => {
            if any {
                state.say(b"\n")
            } else {
                state.say(b" \n")
            }
        }
        Some((operand, others)) => {
            let shown = say_operand(operand, state)?;
            say_record_from(any | shown, others, state)
        }
    }
}

//! What a run sends to its sink.
ghost use Rattle.std.specs.Prelude.{◌≡◌, ℕ, ◌≤◌, List, [], Option, Ok, Err, IfOk, ◌⊎◌};
ghost use Rattle.run_model.specs.Acts as a;
ghost use Rattle.run_model.specs.Turns as t;
ghost use Rattle.f77_semantics.specs.Statements as s;
ghost use Rattle.rn_ports.specs.Causes.{HasCause, Rose};
ghost use Rattle.interp_steps.specs.Worlds.{world_of};
ghost use Rattle.interp_turns.specs.declared.turn.Turn.{Turn as Turns};
ghost use Rattle.interp_calls.specs.Sending as spec;
ghost use Rattle.interp_calls.specs.Sending.{nothing, IsWhole, Sends};

use super::halt::Halt;
use interp_steps::{State, Stop};
use interp_turns::Turn;
use rn_ports::{Sink, write_whole};

/// Why steps stop is why the run does.
pub fn halting<T: Drop>(end: Result<T, Stop>) -> Result<T, Halt>
    ensures { result ≡ spec.halting end }
{
    match end {
        Ok(value) => Ok(value),
        Err(stop) => Err(Halt::Stop(stop)),
    }
}

// Sends what was printed to the sink, and keeps it no longer.
fn send<O: Sink>(state: &mut State, out: &mut O) -> Result<(), Halt>
    ensures run { Sends result (λ _. nothing) (world_of state.old) (world_of state.new) (O.written out.old) (O.written out.new) nothing }
    ensures sent { IsWhole result → state.new.out.items ≡ [] }
    ensures cause { HasCause (O.faults out.old) (O.faults out.new) (result ≡ Err Halt.WriteFault) }
{
    if state.out.is_empty() {
        return Ok(());
    }
    match write_whole(out, state.out.as_slice()) {
        Ok(()) => {
            state.out.clear();
            Ok(())
        }
        Err(_) => Err(Halt::WriteFault),
    }
}

fn is_broken(halt: Halt) -> bool
    ensures { result ≡ spec.is_broken halt }
{
    match halt {
        Halt::Stop(Stop::OutOfMemory) => true,
        Halt::WriteFault => true,
        _ => false,
    }
}

/// Sends what a turn printed. Where memory ran out in the turn, or the sink failed, its output is left.
pub fn send_after<O: Sink>(
    taken: Result<Turn, Halt>,
    state: &mut State,
    out: &mut O,
) -> Result<Turn, Halt>
    ensures run { (view : Turns → t.After s.Here) → (run : a.World → a.Outcome (t.After s.Here)) → (w : a.World) → (before : Option (List ℕ))
        → Sends taken (λ y. a.Fine (view y)) w (world_of state.old) before (O.written out.old) run
        → Sends result (λ y. a.Fine (view y)) w (world_of state.new) before (O.written out.new) run }
    ensures sent { IsWhole result → state.new.out.items ≡ [] }
    ensures same { IfOk result (λ turn. taken ≡ Ok turn) }
    ensures fault { result ≡ Err Halt.WriteFault → (taken ≡ Err Halt.WriteFault) ⊎ Rose (O.faults out.old) (O.faults out.new) }
    ensures later { O.faults out.old ≤ O.faults out.new }
{
    match taken {
        Ok(turn) => match send(state, out) {
            Ok(()) => Ok(turn),
            Err(halt) => Err(halt),
        },
        Err(halt) => {
            if is_broken(halt) {
                return Err(halt);
            }
            match send(state, out) {
                Ok(()) => Err(halt),
                Err(fault) => Err(fault),
            }
        }
    }
}

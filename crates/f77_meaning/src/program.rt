//! The run of a program.
ghost use Rattle.std.specs.Prelude.{◌≡◌, ℕ, ◌<◌, [], List as Lists, Option, Some, Err, IfOk, OnErr, length, map, option_map, slice_get};
ghost use Rattle.rn_ports.specs.Causes.{HasCause};
ghost use Rattle.run_model.specs.Acts as acts;
ghost use Rattle.run_model.specs.Runs as runs;
ghost use Rattle.f77_tree.specs.declared.unit.Unit as spec;
ghost use Rattle.f77_semantics.specs.Program as program;
ghost use Rattle.f77_semantics.specs.Source as source;
ghost use Rattle.f77_semantics.specs.Units as u;
ghost use Rattle.f77_semantics.specs.Values.{stored};
ghost use Rattle.f77_values.specs.Tables.{Name as Word};
ghost use Rattle.interp_steps.specs.Worlds.{world_of};
ghost use Rattle.sound_units.specs.Accepted.{AllAreGood, NamesDiffer};
ghost use Rattle.prog_check.specs.ProgramFaults.{IsAccepted};
ghost use Rattle.interp_calls.specs.Procedures.{AreUnits};
ghost use Rattle.interp_calls.specs.Sending.{IsWhole, Reaches, Sends};
ghost use Rattle.f77_meaning.specs.Answers.{number_of, IsTold};
ghost use Rattle.f77_meaning.specs.Ends.{IsCause, IsEnd, IsFault};

use super::places::{find, main_place, places_of};
use super::procedures::procedures_of;
use super::runs::{InterpretRefused, Run, Undefinedness};
use super::start::given;
use f77_tree::{Unit, Value};
use interp_calls::{Halt, Procedure, call};
use interp_steps::{State, Stop};
use rn_ports::Sink;
use sound_units::programs_law;
use std::alloc::{AllocError, Global};

fn start<'i>(
    alloc: Global,
    procedures: &[Procedure],
    input: &'i [i64],
    steps: u64,
) -> Result<State<'i>, AllocError>
    ensures { (find : Word → ℕ) → (us : Lists program.Routine) → AreUnits find procedures.now us → IfOk result (λ m. world_of m ≡ u.fresh_world us input.now steps) }
{
    let storage = given(alloc, procedures)?;
    Ok(State {
        storage,
        out: Vec::new(alloc),
        input,
        left: steps,
    })
}

// The end of the main program, with all that was printed sent where it stopped, and the state there. Where memory is wanting before the
// program begins, nothing is sent.
fn run_main<'i, O: Sink>(
    alloc: Global,
    units: &[Unit],
    main: usize,
    input: &'i [i64],
    steps: u64,
    out: &mut O,
) -> Result<(Result<Option<Value>, Halt>, State<'i>), AllocError>
    requires { main < length units.now }
    ensures run { (m : spec.Unit) → slice_get units.now main ≡ Some m → IfOk result (λ p. Sends p.0 (λ v. acts.Fine (option_map stored v)) (u.fresh_world (map source.routine units.now) input.now steps) (world_of p.1) (O.written out.old) (O.written out.new) (u.meaning (u.named (map source.routine units.now) (source.routine m)) (length units.now) m.name [])) }
    ensures all { IfOk result (λ p. IsWhole p.0 → p.1.out.items ≡ []) }
    ensures none { OnErr result (O.written out.new ≡ O.written out.old) }
    ensures cause { HasCause (O.faults out.old) (O.faults out.new) (IsFault result) }
{
    let places = places_of(alloc, units)?;
    let procedures = procedures_of(alloc, units, &places, main)?;
    let mut state = start(alloc, procedures.as_slice(), input, steps)?;
    let at = find(&places, main, &units[main].name);
    let end = call(
        alloc,
        procedures.as_slice(),
        at,
        &[],
        units.len(),
        &mut state,
        out,
    );
    Ok((end, state))
}

fn undefinedness(number: u8) -> Undefinedness
    requires { IsCause number }
    ensures { number_of result ≡ number }
{
    match number {
        1 => Undefinedness::Cell,
        2 => Undefinedness::Subscript,
        3 => Undefinedness::ShortActual,
        4 => Undefinedness::Extent,
        5 => Undefinedness::Divisor,
        6 => Undefinedness::Step,
        _ => unreachable!(),
    }
}

// What is told of a run that ended so.
fn told(
    steps: u64,
    end: Result<Option<Value>, Halt>,
    state: &State,
) -> Result<Run, InterpretRefused>
    requires { IsEnd end }
    ensures told { (start now : Option (Lists ℕ)) → (o : acts.Outcome acts.Answer) → (IsWhole end → state.now.out.items ≡ []) → Reaches end (λ v. acts.Fine (option_map stored v)) start now (world_of state.now) o → (runs.answer steps o ≡ runs.Wrong → ⊥) → IsTold result start now (runs.answer steps o) }
    ensures fault { result ≡ Err InterpretRefused.WriteFault → end ≡ Err Halt.WriteFault }
{
    match end {
        Err(Halt::Stop(Stop::Spent)) => Ok(Run::Going),
        Err(Halt::Stop(Stop::Ended(status))) => Ok(Run::Ended(status)),
        Err(Halt::Stop(Stop::Undefined(number))) => {
            let cause = undefinedness(number);
            let step = steps.saturating_sub(state.left);
            Ok(Run::Undefined(step, cause))
        }
        Err(Halt::Stop(Stop::OutOfMemory)) => Err(InterpretRefused::OutOfMemory),
        Err(Halt::WriteFault) => Err(InterpretRefused::WriteFault),
        Err(Halt::Stop(Stop::Stuck)) | Ok(_) => unreachable!(),
    }
}

/// What the run of a program comes to. Its output is sent as it is printed.
pub fn outcome<O: Sink>(
    alloc: Global,
    units: &[Unit],
    input: &[i64],
    steps: u64,
    out: &mut O,
) -> Result<Run, InterpretRefused>
    requires good { AllAreGood units.now }
    requires names { NamesDiffer units.now }
    requires accepted { IsAccepted units.now }
    ensures told { IsTold result (O.written out.old) (O.written out.new) (source.Source units.now input.now steps) }
    ensures cause { HasCause (O.faults out.old) (O.faults out.new) (result ≡ Err InterpretRefused.WriteFault) }
{
    programs_law();
    match main_place(units) {
        Some(main) => {
            let (end, state) = run_main(alloc, units, main, input, steps, out)?;
            told(steps, end, &state)
        }
        None => unreachable!(),
    }
}

//! Running a program with its input: what it writes, and how it ends.
ghost use Rattle.std.specs.Prelude.{◌≡◌, Err, IfOk, OnOk, OnErr};
ghost use Rattle.std.specs.Io.KnownBytes.{Appends};
ghost use Rattle.run_model.specs.Runs.{text_of};
ghost use Rattle.rn_ports.specs.Causes.{HasCause};
ghost use Rattle.rn_ports.specs.Sent.{AppendsPart};
ghost use Rattle.f77_semantics.specs.Source.{Source};
ghost use Rattle.sound_units.specs.Accepted.{AllAreGood, NamesDiffer};
ghost use Rattle.prog_check.specs.ProgramFaults.{IsAccepted};
ghost use Rattle.f77_meaning.specs.Answers.{run_of};

use super::program::outcome;
use super::runs::{InterpretRefused, Run};
use f77_tree::Unit;
use rn_ports::Sink;
use std::alloc::Global;

/// Runs an accepted program on this input, until just before it would begin the step behind the last of so many. Its output goes to the
/// sink statement by statement, as it is printed, so that no more of it is kept than one PRINT statement writes.
pub fn interpret<O: Sink>(
    alloc: Global,
    units: &[Unit],
    input: &[i64],
    steps: u64,
    out: &mut O,
) -> Result<Run, InterpretRefused>
    requires good { AllAreGood units.now }
    requires names { NamesDiffer units.now }
    requires accepted { IsAccepted units.now }
    ensures run { IfOk result (λ run. Source units.now input.now steps ≡ run_of run (text_of (Source units.now input.now steps))) }
    ensures all { OnOk result (Appends (O.written out.old) (O.written out.new) (text_of (Source units.now input.now steps))) }
    ensures front { OnErr result (AppendsPart (O.written out.old) (O.written out.new) (text_of (Source units.now input.now steps))) }
    ensures cause { HasCause (O.faults out.old) (O.faults out.new) (result ≡ Err InterpretRefused.WriteFault) }
{
    outcome(alloc, units, input, steps, out)
}

//! The top call.
ghost use Rattle.std.specs.Prelude.{◌≡◌, ◌≢◌, ℕ, ◌↔◌, IsNone, IfSome};
ghost use Rattle.std.specs.Option.{option_zip};
ghost use Rattle.std.specs.Io.KnownBytes.{Appends, IsAtEnd};
ghost use Rattle.rn_ports.specs.Causes.{Rose};
ghost use Rattle.rn_session.specs.Words.{steps_of};
ghost use Rattle.rn_session.specs.Answers.{Answered, IsComplete, Noted, input_limit, long_fault};
ghost use Rattle.rn_session.specs.Exact.{IsExact};
ghost use Rattle.rn_session.specs.Sources.{SaysOfSource};

use super::fault::refuse_source;
use super::laws::answers_law;
use super::lines::refuse;
use super::making::machine_of;
use super::running::run_machine;
use super::status::Status;
use super::words::steps;
use fixed_form::{List, Place, Refused, SourceFault};
use rn_ports::{Gate, Keeper, ReadRefused, Sink, Source, Tally, read_whole};
use std::alloc::Global;

/// The greatest number of bytes of an input.
pub const LIMIT: usize = 67_108_864;

/// Does what the words ask for, which is `one STEPS` or nothing: compiles the thin program that the input is and runs it
/// for at most STEPS instructions. The gate and the keeper are not asked.
pub fn rn_top<I: Source, O: Sink, K: Keeper, G: Gate + Sync, T: Tally>(
    alloc: Global,
    words: &[List<u8>],
    input: &mut I,
    out: &mut O,
    keep: &mut K,
    gate: &G,
    tally: &mut T,
) -> Status
    // Words off the table read nothing.
    ensures words { (result ≡ Status.BadWords) ↔ IsNone (steps_of words.now) }
    ensures unread { result ≡ Status.BadWords → input.new ≡ input.old }

    // A fault of a port has its count as the cause.
    ensures read { result ≡ Status.ReadFault → Rose (I.faults input.old) (I.faults input.new) }
    ensures write { result ≡ Status.WriteFault → Rose (O.faults out.old) (O.faults out.new) }

    // What is answered, and what the sink gets of it.
    ensures answer { Answered input_limit words.now (I.left input.old) result (O.written out.old) (O.written out.new) (Rose (O.faults out.old) (O.faults out.new)) }
    ensures complete { ¬ (Rose (I.faults input.old) (I.faults input.new)) → ¬ (Rose (O.faults out.old) (O.faults out.new)) →
        IfSome (steps_of words.now) (λ steps. IsComplete input_limit steps (I.left input.old) result) }
    // An answer that is no fault of a port and no want of memory comes exactly where it fits the input.
    ensures exactly { result ≢ Status.ReadFault → result ≢ Status.WriteFault → result ≢ Status.OutOfMemory →
        IfSome (option_zip (steps_of words.now) (I.left input.old)) (λ asked. IsExact input_limit asked.0 asked.1 result) }

    // What the status says of the source, by its meaning.
    ensures source { IfSome (option_zip (steps_of words.now) (I.left input.old)) (λ asked.
        SaysOfSource result asked.0 asked.1 (O.written out.old) (O.written out.new)) }

    ensures end { result ≡ Status.Ok → IsAtEnd (I.left input.new) }
    ensures noted { Noted result (T.notes tally.old) (T.notes tally.new) }
    ensures kept { keep.new ≡ keep.old }
{
    answers_law();
    let Some(steps) = steps(words) else {
        return refuse(out, Status::BadWords, b"bad words\n");
    };
    let text = match read_whole(alloc, input, LIMIT) {
        Ok(text) => text,
        Err(ReadRefused::Failed) => return refuse(out, Status::ReadFault, b"read fault\n"),
        Err(ReadRefused::TooLong) => return refuse_source(alloc, out, long_fault()),
        Err(ReadRefused::OutOfMemory) => {
            return refuse(out, Status::OutOfMemory, b"out of memory\n");
        }
    };
    match machine_of(alloc, text.as_slice(), tally) {
        Ok(mut machine) => run_machine(&mut machine, steps, out),
        Err(Refused::Fault(fault)) => refuse_source(alloc, out, fault),
        Err(Refused::OutOfMemory) => refuse(out, Status::OutOfMemory, b"out of memory\n"),
    }
}

// The fault of an input above the limit, which is a fault of no line.
fn long_fault() -> SourceFault
    ensures { result ≡ long_fault input_limit }
{
    SourceFault {
        number: 37,
        place: Place {
            unit: None,
            line: 0,
        },
        limit: LIMIT as u64,
    }
}

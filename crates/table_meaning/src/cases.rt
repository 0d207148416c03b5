//! Cases, and what they come to.
use super::programs::program_of;
use super::runs::answer_of;
use f77_meaning::interpret;
use f77_tree::Refused;
use rn_ports::MemSink;
use std::alloc::{AllocError, Global};
use table_notation::{numbers_behind, shown, source_of, text_behind, turns_behind};

// The bytes that a sink takes where the case doesn't say.
const ROOM: usize = 2000;

// How the run of a program that begins so many steps ends, or why the text is none.
fn told(
    alloc: Global,
    text: &[u8],
    input: &[i64],
    steps: u64,
    sink: &mut MemSink,
) -> Result<String, Refused> {
    let units = program_of(alloc, text)?;
    let outcome = interpret(alloc, units.as_slice(), input, steps, sink);
    Ok(answer_of(alloc, outcome)?)
}

// The same, with the fault of a text that is no program.
fn end_of(
    alloc: Global,
    text: &[u8],
    input: &[i64],
    steps: u64,
    sink: &mut MemSink,
) -> Result<String, AllocError> {
    match told(alloc, text, input, steps, sink) {
        Ok(end) => Ok(end),
        Err(Refused::Fault(fault)) => format!(in alloc; "fault {}", fault.number),
        Err(Refused::OutOfMemory) => Err(AllocError),
    }
}

fn sink_of(alloc: Global, head: &str) -> Result<MemSink, AllocError> {
    let room = text_behind(head, "room").parse::<usize>().unwrap_or(ROOM);
    let fails = turns_behind(alloc, head, "fails")?;
    MemSink::new(alloc, room, fails)
}

// The output of a run that begins so many steps, and how it ends.
fn run_of(alloc: Global, head: &str, text: &[u8], steps: u64) -> Result<String, AllocError> {
    let input = numbers_behind(alloc, head, "<")?;
    let mut sink = sink_of(alloc, head)?;
    let end = end_of(alloc, text, input.as_slice(), steps, &mut sink)?;
    let output = shown(alloc, sink.bytes())?;
    format!(in alloc; "{output} {end}")
}

// How it ends where it may begin so many steps.
fn shorter_of(alloc: Global, head: &str, text: &[u8], steps: u64) -> Result<String, AllocError> {
    let input = numbers_behind(alloc, head, "<")?;
    let mut sink = sink_of(alloc, head)?;
    end_of(alloc, text, input.as_slice(), steps, &mut sink)
}

// The number of steps in a head, if it has one.
fn steps_of(head: &str) -> Option<u64> {
    let first = head.split_whitespace().next()?;
    first.parse::<u64>().ok()
}

/// What a case comes to.
pub(crate) fn found_of(alloc: Global, case: &str) -> Result<String, AllocError> {
    let (head, written) = case.split_once(": ").unwrap_or((case, ""));
    let text = source_of(alloc, written)?;
    let Some(steps) = steps_of(head) else {
        return run_of(alloc, head, text.as_slice(), u64::MAX);
    };
    let run = run_of(alloc, head, text.as_slice(), steps)?;
    let fewer = steps.saturating_sub(1);
    let shorter = shorter_of(alloc, head, text.as_slice(), fewer)?;
    format!(in alloc; "{run} | {fewer}: {shorter}")
}

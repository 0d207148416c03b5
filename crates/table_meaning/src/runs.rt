//! How runs end, in words.
use f77_meaning::{InterpretRefused, Run, Undefinedness};
use std::alloc::{AllocError, Global};

// The numbers by which the causes are told.
fn number_of(cause: Undefinedness) -> u8 {
    match cause {
        Undefinedness::Cell => 1,
        Undefinedness::Subscript => 2,
        Undefinedness::ShortActual => 3,
        Undefinedness::Extent => 4,
        Undefinedness::Divisor => 5,
        Undefinedness::Step => 6,
    }
}

fn end_of(alloc: Global, run: Run) -> Result<String, AllocError> {
    match run {
        Run::Going => String::from_str(alloc, "goes on"),
        Run::Ended(status) => format!(in alloc; "ended {status}"),
        Run::Undefined(step, cause) => {
            let number = number_of(cause);
            format!(in alloc; "undefined {step} {number}")
        }
    }
}

/// What the interpreter answered.
pub(crate) fn answer_of(
    alloc: Global,
    outcome: Result<Run, InterpretRefused>,
) -> Result<String, AllocError> {
    match outcome {
        Ok(run) => end_of(alloc, run),
        Err(InterpretRefused::WriteFault) => String::from_str(alloc, "write fault"),
        Err(InterpretRefused::OutOfMemory) => Err(AllocError),
    }
}

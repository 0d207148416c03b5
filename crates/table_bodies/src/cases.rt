//! Cases, and what they come to.
use super::callees::Sites;
use super::reading::blocks_of;
use f77_tree::{List, Name, Value};
use interp_cells::{Area, Storage};
use interp_steps::{Interval, State, Stop};
use ir_core::Body;
use ir_run::{Activation, run};
use std::alloc::{AllocError, Global};
use table_notation::{numbers_behind, shown};

// What the dummies are associated with: so many units each, in one COMMON block, ten units apart.
fn actuals_of<'a>(
    alloc: Global,
    block: &'a Name,
    lengths: &[i64],
) -> Result<Vec<Interval<'a>>, AllocError> {
    let mut actuals = Vec::new(alloc);
    let mut from: usize = 0;
    for length in lengths {
        actuals.push(Interval {
            area: Area::Block(block),
            from,
            length: usize::try_from(*length).unwrap_or(0),
        })?;
        from = from.saturating_add(10);
    }
    Ok(actuals)
}

fn answered(alloc: Global, answer: Option<Value>) -> Result<String, AllocError> {
    match answer {
        None => String::from_str(alloc, "answers nothing"),
        Some(Value::Integer(x)) => format!(in alloc; "answers {x}"),
        Some(Value::Logical(true)) => String::from_str(alloc, "answers T"),
        Some(Value::Logical(false)) => String::from_str(alloc, "answers F"),
    }
}

// How a run ends, in words.
fn end_of(alloc: Global, outcome: Result<Option<Value>, Stop>) -> Result<String, AllocError> {
    match outcome {
        Ok(answer) => answered(alloc, answer),
        Err(Stop::Spent) => String::from_str(alloc, "goes on"),
        Err(Stop::Ended(status)) => format!(in alloc; "ended {status}"),
        Err(Stop::Undefined(cause)) => format!(in alloc; "undefined {cause}"),
        Err(Stop::Stuck) => String::from_str(alloc, "stuck"),
        Err(Stop::OutOfMemory) => Err(AllocError),
    }
}

// The output of a run, and how it ends.
fn run_of(alloc: Global, head: &str, steps: u64, body: &Body) -> Result<String, AllocError> {
    let unit = Name::from_list(List::from_slice(alloc, b"U")?);
    let block = Name::from_list(List::from_slice(alloc, b"A")?);
    let lengths = numbers_behind(alloc, head, "dummies")?;
    let input = numbers_behind(alloc, head, "<")?;
    let actuals = actuals_of(alloc, &block, lengths.as_slice())?;
    let activation = Activation {
        unit: &unit,
        actuals: actuals.as_slice(),
    };
    let mut state = State {
        storage: Storage::new(alloc),
        out: Vec::new(alloc),
        input: input.as_slice(),
        left: steps,
    };
    let outcome = run(alloc, body, &activation, &Sites, &mut state);
    let end = end_of(alloc, outcome)?;
    let output = shown(alloc, state.out.as_slice())?;
    format!(in alloc; "{output} {end}")
}

fn number_at(head: &str, at: usize) -> u32 {
    match head.split_whitespace().nth(at) {
        Some(word) => word.parse::<u32>().unwrap_or(0),
        None => 0,
    }
}

/// What a case comes to.
pub(crate) fn found_of(alloc: Global, case: &str) -> Result<String, AllocError> {
    let (head, text) = case.split_once(": ").unwrap_or((case, ""));
    let blocks = blocks_of(alloc, text)?;
    match Body::new(alloc, blocks, number_at(head, 1))? {
        Some(body) => run_of(alloc, head, number_at(head, 0) as u64, &body),
        None => String::from_str(alloc, "no body"),
    }
}

//! The units of an area that have a value at first, as runs.
ghost use Rattle.std.specs.Prelude.{◌↔◌, IfOk, IsTrue};
ghost use Rattle.serde_json.specs.View.{view};
ghost use Rattle.obj_form.specs.Grammar.{IsInitial, IsRun, Reads, Writes};
ghost use Rattle.obj_form.specs.Objects.{AreRuns, IsBefore};

use super::leaves::{constant_of, constant_value, word_of, word_value};
use super::object::InitialRun;
use super::part::{Part, array_of, three_of, three_value};
use f77_tree::List;
use serde_json::Value as Json;
use std::alloc::{AllocError, Global};

fn run_of(value: &Json) -> Option<InitialRun>
    ensures { Reads IsRun (view value.now) result }
{
    let (from, count, constant) = three_of(value)?;
    let run = InitialRun {
        from: word_of(from)?,
        count: word_of(count)?,
        value: constant_of(constant)?,
    };
    if run.count == 0 { None } else { Some(run) }
}

fn run_value(alloc: Global, run: InitialRun) -> Result<Json, AllocError>
    ensures { IfOk result (λ v. Writes IsRun (view v) run) }
{
    let from = word_value(run.from);
    let count = word_value(run.count);
    three_value(alloc, from, count, constant_value(run.value))
}

impl Part for InitialRun {
    ghost form = { IsRun };

    fn part_value(&self, alloc: Global) -> Result<Json, AllocError> {
        run_value(alloc, *self)
    }

    fn part_of(_alloc: Global, value: &Json) -> Result<Option<InitialRun>, AllocError> {
        Ok(run_of(value))
    }
}

fn is_before(first: InitialRun, second: InitialRun) -> bool
    ensures { IsTrue result ↔ IsBefore first second }
{
    let end = u64::from(first.from) + u64::from(first.count);
    let start = u64::from(second.from);
    end < start || (end == start && first.value != second.value)
}

/// Whether each run stands before the next, and has another value than it where they touch.
pub fn are_runs(runs: &[InitialRun]) -> bool
    ensures { IsTrue result ↔ AreRuns runs.now }
{
    'run: for at in 1..runs.len() {
        if !is_before(runs[at - 1], runs[at]) {
            return false;
        }
    }
    true
}

/// The runs that stand there.
pub fn initial_of(alloc: Global, value: &Json) -> Result<Option<List<InitialRun>>, AllocError>
    ensures { IfOk result (Reads IsInitial (view value.now)) }
{
    let Some(runs) = array_of::<InitialRun>(alloc, value)? else {
        return Ok(None);
    };
    if are_runs(runs.as_slice()) {
        Ok(Some(runs))
    } else {
        drop(runs);
        Ok(None)
    }
}

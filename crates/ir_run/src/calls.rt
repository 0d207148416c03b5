//! Calls.
ghost use Rattle.std.specs.Prelude.{◌≡◌, ◌∷◌, ◌++◌, [], OnOk, map};
ghost use Rattle.std.specs.Option.{option_map};
ghost use Rattle.run_model.specs.Acts as a;
ghost use Rattle.f77_semantics.specs.Values.{stored};
ghost use Rattle.interp_steps.specs.Frames.{interval_of};
ghost use Rattle.interp_steps.specs.Stops.{Ends, Gives};
ghost use Rattle.interp_steps.specs.Worlds.{world_of};
ghost use Rattle.ir_core.specs.Runs as r;
ghost use Rattle.ir_core.specs.declared.instruction.Instr.TheVariants as i;
ghost use Rattle.ir_run.specs.Images.{arguments_of, values_of};

use super::callees::Callees;
use super::values::{Content, Values};
use super::words::word_of;
use f77_tree::Value;
use interp_steps::{Interval, State, Stop};
use std::alloc::{AllocError, Global};

fn push<'a>(all: &mut Vec<Interval<'a>>, address: Interval<'a>) -> Result<(), AllocError>
    ensures { OnOk result (map interval_of all.new.items ≡ map interval_of all.old.items ++ interval_of address.entry ∷ []) }
{
    all.push(address)?;
    Ok(())
}

// The arguments, if each is set.
fn passed<'a>(alloc: Global, arguments: &[Option<Interval<'a>>]) -> Result<Vec<Interval<'a>>, Stop>
    ensures { Gives result (λ all. map interval_of all.items) (r.or_stuck (r.all_set (arguments_of arguments.now))) }
{
    let mut all = Vec::with_capacity(alloc, arguments.len())?;
    for argument in arguments {
        match argument {
            Some(address) => push(&mut all, *address)?,
            None => return Err(Stop::Stuck),
        }
    }
    Ok(all)
}

fn set_result(to: u32, answer: Option<Value>, values: &mut Values) -> Result<(), Stop>
    ensures { Gives result (λ _. values_of values.new) (r.result_set to (values_of values.old) (option_map stored answer)) }
{
    match answer {
        Some(value) => {
            values.set(to, Content::Word(word_of(value)))?;
            Ok(())
        }
        None => Err(Stop::Stuck),
    }
}

// What is made of the answer to a call.
fn answered(to: Option<u32>, answer: Option<Value>, values: &mut Values) -> Result<(), Stop>
    ensures { Gives result (λ _. values_of values.new) (r.answered to (values_of values.old) (option_map stored answer)) }
{
    values.forget_arguments();
    match to {
        Some(to) => set_result(to, answer, values),
        None => Ok(()),
    }
}

/// Calls what is called at a site, on the arguments that are set.
pub fn call<C: Callees>(
    alloc: Global,
    callees: &C,
    site: u32,
    to: Option<u32>,
    values: &mut Values,
    state: &mut State,
) -> Result<(), Stop>
    ensures { (f : r.Activation) → Ends result (λ _. values_of values.new) (world_of state.new) (a.play (C.handler callees.now) (r.instruction f (i.Call site to) (values_of values.old)) (world_of state.old)) }
{
    match passed(alloc, values.arguments.as_slice()) {
        Ok(actuals) => match callees.call(alloc, site, actuals.as_slice(), state) {
            Ok(answer) => answered(to, answer, values),
            Err(stop) => Err(stop),
        },
        Err(stop) => Err(stop),
    }
}

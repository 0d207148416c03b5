//! Runs of bodies.
ghost use Rattle.std.specs.Prelude.{◌≡◌, slice_get};
ghost use Rattle.std.specs.Option.{option_copied, option_map};
ghost use Rattle.run_model.specs.Acts as a;
ghost use Rattle.f77_semantics.specs.Values.{stored};
ghost use Rattle.interp_steps.specs.Stops.{Ends};
ghost use Rattle.interp_steps.specs.Worlds.{world_of};
ghost use Rattle.ir_core.specs.Runs as r;
ghost use Rattle.ir_run.specs.Images.{activation_of, temporaries_of};
ghost use Rattle.ir_run.specs.Ends.{after_of};

use super::callees::Callees;
use super::ends::{Turn, end};
use super::instructions::instructions;
use super::spots::Activation;
use super::values::Values;
use f77_tree::Value;
use interp_steps::{State, Stop};
use ir_core::{Block, Body};
use std::alloc::Global;

fn visit_block<'a, C: Callees>(
    alloc: Global,
    callees: &C,
    activation: &Activation<'a>,
    block: &'a Block,
    values: &mut Values<'a>,
    state: &mut State,
) -> Result<Turn, Stop>
    ensures { Ends result (λ t. after_of t (temporaries_of values.new.temporaries.items)) (world_of state.new) (a.play (C.handler callees.now) (r.visit_block (activation_of activation.now) block.now (temporaries_of values.old.temporaries.items)) (world_of state.old)) }
{
    values.forget_arguments();
    match instructions(
        alloc,
        callees,
        activation,
        block.code.as_slice(),
        values,
        state,
    ) {
        Ok(()) => end(values.temporaries.as_slice(), &block.end),
        Err(stop) => Err(stop),
    }
}

fn visit<'a, C: Callees>(
    alloc: Global,
    callees: &C,
    activation: &Activation<'a>,
    block: Option<&'a Block>,
    values: &mut Values<'a>,
    state: &mut State,
) -> Result<Turn, Stop>
    ensures { Ends result (λ t. after_of t (temporaries_of values.new.temporaries.items)) (world_of state.new) (a.play (C.handler callees.now) (r.visit (activation_of activation.now) (option_copied block.entry) (temporaries_of values.old.temporaries.items)) (world_of state.old)) }
{
    match block {
        Some(block) => visit_block(alloc, callees, activation, block, values, state),
        None => Err(Stop::Stuck),
    }
}

fn block_at(body: &Body, at: u32) -> Option<&Block>
    ensures { option_copied result ≡ slice_get body.now.blocks at }
{
    body.blocks().get(at as usize)
}

/// Runs a body, in an activation of its unit whose local cells are as at the entry.
pub fn run<'a, C: Callees>(
    alloc: Global,
    body: &'a Body,
    activation: &Activation<'a>,
    callees: &C,
    state: &mut State,
) -> Result<Option<Value>, Stop>
    ensures { Ends result (λ answer. option_map stored answer) (world_of state.new) (r.run_body (C.handler callees.now) (activation_of activation.now) body.now (world_of state.old)) }
{
    let mut values = Values::new(alloc);
    let mut at = 0;
    let mut more = state.left;
    'turns: loop {
        match state.tick() {
            Ok(()) => {}
            Err(stop) => return Err(stop),
        }
        match visit(
            alloc,
            callees,
            activation,
            block_at(body, at),
            &mut values,
            state,
        ) {
            Ok(Turn::Again(next)) => at = next,
            Ok(Turn::Result(answer)) => return Ok(answer),
            Err(stop) => return Err(stop),
        }
        if more == 0 {
            return Err(Stop::Spent);
        }
        more -= 1;
    }
}

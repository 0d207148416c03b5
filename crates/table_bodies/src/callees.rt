//! What the sites of a table's bodies call.
ghost use Rattle.std.specs.Prelude.{map};
ghost use Rattle.std.specs.Option.{option_map};
ghost use Rattle.run_model.specs.Acts.{Handler, play};
ghost use Rattle.f77_semantics.specs.Values.{stored};
ghost use Rattle.interp_cells.specs.Spots.{loc_of};
ghost use Rattle.interp_steps.specs.Frames.{interval_of};
ghost use Rattle.interp_steps.specs.Stops.{Ends, Gives};
ghost use Rattle.interp_steps.specs.Worlds.{world_of};
ghost use Rattle.table_bodies.specs.Sites as s;

use f77_tree::Value;
use interp_cells::Spot;
use interp_steps::{Interval, State, Stop};
use ir_run::Callees;
use std::alloc::Global;

/// Site 1 tells whether there are two actual arguments, 2 gives the value of the first, 3 makes the first 9 and gives nothing, and every
/// other ends the run with status 5.
#[derive(Clone, Copy, Drop)]
pub(crate) struct Sites;

fn first<'a>(actuals: &[Interval<'a>]) -> Result<Spot<'a>, Stop>
    ensures { Gives result (λ spot. loc_of spot) (s.first (map interval_of actuals.now)) }
{
    match actuals.first() {
        Some(actual) => Ok(Spot {
            area: actual.area,
            offset: actual.from,
        }),
        None => Err(Stop::Stuck),
    }
}

fn seen(actuals: &[Interval], state: &State) -> Result<Option<Value>, Stop>
    ensures { (h : Handler) → Ends result (λ answer. option_map stored answer) (world_of state.now) (play h (s.seen (map interval_of actuals.now)) (world_of state.now)) }
{
    match first(actuals) {
        Ok(spot) => match state.storage.get(spot) {
            Some(value) => Ok(Some(value)),
            None => Err(Stop::Undefined(1)),
        },
        Err(stop) => Err(stop),
    }
}

fn changed(alloc: Global, actuals: &[Interval], state: &mut State) -> Result<Option<Value>, Stop>
    ensures { (h : Handler) → Ends result (λ answer. option_map stored answer) (world_of state.new) (play h (s.changed (map interval_of actuals.now)) (world_of state.old)) }
{
    match first(actuals) {
        Ok(spot) => match state.store(alloc, spot, Value::Integer(9)) {
            Ok(()) => Ok(None),
            Err(stop) => Err(stop),
        },
        Err(stop) => Err(stop),
    }
}

impl Callees for Sites {
    ghost use Rattle.table_bodies.specs.Sites.{handler};

    ghost handler = { λ sites. handler };

    fn call(
        &self,
        alloc: Global,
        site: u32,
        actuals: &[Interval],
        state: &mut State,
    ) -> Result<Option<Value>, Stop> {
        match site {
            1 => Ok(Some(Value::Logical(actuals.len() == 2))),
            2 => seen(actuals, state),
            3 => changed(alloc, actuals, state),
            _ => Err(Stop::Ended(5)),
        }
    }
}

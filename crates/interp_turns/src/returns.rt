//! The answer of a unit to its caller.
ghost use Rattle.std.specs.Prelude.{Some, option_map};
ghost use Rattle.run_model.specs.Acts as a;
ghost use Rattle.run_model.specs.Turns as t;
ghost use Rattle.f77_semantics.specs.Expressions as e;
ghost use Rattle.f77_semantics.specs.Statements as s;
ghost use Rattle.f77_semantics.specs.Values.{stored};
ghost use Rattle.interp_steps.specs.Frames.{frame_of};
ghost use Rattle.interp_turns.specs.Flows.{variable_of};
ghost use Rattle.interp_turns.specs.Turns.{Turns};

use super::here::Here;
use super::turn::Turn;
use f77_semantics::Base;
use f77_tree::Ty;
use interp_steps::{Frame, State, Stop, scalar};

// The value of a function's result variable, which is read at its return.
fn value_of<'a>(
    frame: &Frame<'a>,
    ty: Ty,
    base: &'a Base,
    here: &Here,
    state: &State,
) -> Result<Turn, Stop>
    ensures { Turns result here.now state.now state.now (a.and_then (e.fetch ty (e.scalar (frame_of frame.now) base.now)) (λ v. a.Done (t.Result (Some (stored v))))) }
{
    let spot = scalar(frame, base)?;
    match state.fetch(ty, spot) {
        Ok(value) => Ok(Turn::Result(Some(value))),
        Err(stop) => Err(stop),
    }
}

/// The value of a function's result variable, or nothing where there is none.
pub fn answer<'a>(
    frame: &Frame<'a>,
    variable: Option<(Ty, &'a Base)>,
    here: &Here,
    state: &State,
) -> Result<Turn, Stop>
    ensures { Turns result here.now state.now state.now (s.return (frame_of frame.now) (option_map variable_of variable.entry)) }
{
    match variable {
        None => Ok(Turn::Result(None)),
        Some((ty, base)) => value_of(frame, ty, base, here, state),
    }
}

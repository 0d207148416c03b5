//! What is called at the sites of a body.
ghost use Rattle.std.specs.Prelude.{◌≡◌, map};
ghost use Rattle.std.specs.Option.{option_map};
ghost use Rattle.run_model.specs.Acts.{Handler};
ghost use Rattle.f77_semantics.specs.Values.{stored};
ghost use Rattle.interp_steps.specs.Frames.{interval_of};
ghost use Rattle.interp_steps.specs.Stops.{Ends};
ghost use Rattle.interp_steps.specs.Worlds.{world_of};

use f77_tree::Value;
use interp_steps::{Interval, State, Stop};
use std::alloc::Global;

/// What is called at the sites of a body.
pub trait Callees {
    // What a call does.
    ghost handler: { Self → Handler };

    /// Calls what is called at a site, on these actual arguments.
    fn call(
        &self,
        alloc: Global,
        site: u32,
        actuals: &[Interval],
        state: &mut State,
    ) -> Result<Option<Value>, Stop>
        ensures { Ends result (λ answer. option_map stored answer) (world_of state.new) (handler self.now site (map interval_of actuals.now) (world_of state.old)) };
}

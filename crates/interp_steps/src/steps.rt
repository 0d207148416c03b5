//! The steps of expressions, but for calls.
ghost use Rattle.std.specs.Prelude.{◌≡◌, false};
ghost use Rattle.interp_code.specs.Steps as c;
ghost use Rattle.interp_steps.specs.Calls.{calls};
ghost use Rattle.interp_steps.specs.Frames.{frame_of};
ghost use Rattle.interp_steps.specs.Moves.{Moves};
ghost use Rattle.interp_steps.specs.Stacks.{stack_of};

use super::frame::Frame;
use super::operand::Operand;
use super::operations::{
    compute_step, deny_step, keep_step, locate_step, negate_step, number_step, operate_step,
    rest_step,
};
use super::pushes::{aim_step, open_step, pass_step, push_step, show_step, whole_step};
use super::reads::{fetch_step, load_step};
use super::state::State;
use super::stop::Stop;
use super::stores::{hold_step, take_step};
use interp_code::Step;
use std::alloc::Global;

/// Takes a step that calls nothing.
pub fn step<'a>(
    alloc: Global,
    frame: &Frame<'a>,
    step: &'a Step,
    stack: &mut Vec<Operand<'a>>,
    state: &mut State,
) -> Result<(), Stop>
    requires { calls step.now ≡ false }
    ensures moves { Moves result stack.new.items state.old state.new (c.step (frame_of frame.now) step.now (stack_of stack.old.items)) }
    ensures printed { state.new.out ≡ state.old.out }
{
    match step {
        Step::Push(value) => push_step(*value, stack),
        Step::Show(bytes) => show_step(bytes, stack),
        Step::Open => open_step(stack),
        Step::Fetch(ty, base) => fetch_step(frame, *ty, base, stack, state),
        Step::Aim(base) => aim_step(frame, base, stack),
        Step::Locate(array) => locate_step(alloc, frame, array, stack),
        Step::Load(ty) => load_step(*ty, stack, state),
        Step::Pass(base) => pass_step(frame, base, stack),
        Step::PassWhole(array) => whole_step(frame, array, stack),
        Step::PassRest(array) => rest_step(alloc, frame, array, stack),
        Step::Hold(site, position) => hold_step(alloc, frame, *site, *position, stack, state),
        Step::Compute(which) => compute_step(alloc, *which, stack),
        Step::Keep => keep_step(stack),
        Step::Negate => negate_step(stack),
        Step::Deny => deny_step(stack),
        Step::Operate(op) => operate_step(*op, stack),
        Step::Number => number_step(stack),
        Step::TakeIn => take_step(alloc, stack, state),
        Step::Refer(_) | Step::Perform(_) | Step::Wrong => Err(Stop::Stuck),
    }
}

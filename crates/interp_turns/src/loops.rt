//! DO loops.
ghost use Rattle.std.specs.Prelude.{◌≡◌, ◌<◌, false, length, pos, ◌+ℤ◌, ◌-ℤ◌, ◌-◌, int_div, Option, OnOk};
ghost use Rattle.std.specs.Ordering.{int_eq};
ghost use Rattle.run_model.specs.Acts as a;
ghost use Rattle.run_model.specs.Turns as t;
ghost use Rattle.f77_tree.specs.declared.unit.Ty.TheVariants as ty;
ghost use Rattle.f77_tree.specs.declared.unit.Value.TheVariants as v;
ghost use Rattle.f77_values.specs.Arithmetic.{wrap};
ghost use Rattle.f77_semantics.specs.Expressions as e;
ghost use Rattle.f77_semantics.specs.Program as p;
ghost use Rattle.f77_semantics.specs.Statements as s;
ghost use Rattle.interp_cells.specs.Spots.{loc_of};
ghost use Rattle.interp_code.specs.Endings as c;
ghost use Rattle.interp_steps.specs.Frames.{frame_of};
ghost use Rattle.interp_steps.specs.Stops.{Ends};
ghost use Rattle.interp_steps.specs.Worlds.{world_of};
ghost use Rattle.interp_turns.specs.Flows.{Follows};
ghost use Rattle.interp_turns.specs.Places.{here_of, loop_of, Stands};
ghost use Rattle.interp_turns.specs.Turns.{Turns};

use super::flow::leaving;
use super::here::{Here, Loop, Point};
use super::turn::Turn;
use f77_flow::Control;
use f77_semantics::Base;
use f77_tree::{Op, Ty, Value};
use f77_values::operate;
use interp_cells::Spot;
use interp_steps::{Frame, State, Stop, as_number, scalar};
use std::alloc::Global;

/// The test of the DO at k: its range begins, or it is left.
pub fn tested(control: &Control, k: usize, here: &mut Here)
    requires statement { k < length control.now.statements.now }
    requires stands { Stands (length control.now.statements.now) here.old }
    ensures turn { (u : p.Routine) → Follows u control.now.statements.now → s.tested u k (here_of here.old) ≡ a.Done (t.Again (here_of here.new)) }
    ensures stands { Stands (length control.now.statements.now) here.new }
{
    let left = here.get(k);
    let count = left.count;
    if count == 0 {
        here.point = leaving(control, k);
    } else {
        here.point = Point::At(control.below(k) as usize);
    }
}

fn sum(x: i64, y: i64) -> i64
    ensures { result ≡ wrap (x +ℤ y) }
{
    x.wrapping_add(y)
}

fn difference(x: i64, y: i64) -> i64
    ensures { result ≡ wrap (x -ℤ y) }
{
    x.wrapping_sub(y)
}

fn quotient(x: i64, y: i64) -> i64
    requires { int_eq y (pos 0) ≡ false }
    ensures { result ≡ wrap (int_div x y) }
{
    match operate(Op::Div, Value::Integer(x), Value::Integer(y)) {
        Some(Value::Integer(quotient)) => quotient,
        _ => 0,
    }
}

fn not_below_zero(n: i64) -> u64
    ensures { result ≡ s.not_below_zero n }
{
    if n < 0 { 0 } else { n as u64 }
}

// How often the range of a DO is run.
fn trips(first: i64, last: i64, step: i64) -> u64
    requires { int_eq step (pos 0) ≡ false }
    ensures { result ≡ s.trips first last step }
{
    let far = sum(difference(last, first), step);
    not_below_zero(quotient(far, step))
}

// Stores the sum of a number and the step.
fn store_sum(
    alloc: Global,
    spot: Spot,
    value: Value,
    step: i64,
    state: &mut State,
) -> Result<(), Stop>
    ensures { (h : a.Handler) → Ends result (λ _. tt) (world_of state.new) (a.play h (a.and_then (s.as_number value) (λ n. e.store (loc_of spot.entry) (v.Integer (wrap (n +ℤ step))))) (world_of state.old)) }
{
    match as_number(value) {
        Ok(n) => state.store(alloc, spot, Value::Integer(sum(n, step))),
        Err(stop) => Err(stop),
    }
}

// Adds to the variable of a DO, as it stands in its cell.
fn add_to(alloc: Global, spot: Spot, step: i64, state: &mut State) -> Result<(), Stop>
    ensures { (h : a.Handler) → Ends result (λ _. tt) (world_of state.new) (a.play h (a.and_then (e.fetch ty.Integer (loc_of spot.entry)) (λ x. a.and_then (s.as_number x) (λ n. e.store (loc_of spot.entry) (v.Integer (wrap (n +ℤ step)))))) (world_of state.old)) }
{
    match state.fetch(Ty::Integer, spot) {
        Ok(value) => store_sum(alloc, spot, value, step, state),
        Err(stop) => Err(stop),
    }
}

// What is left of a DO after one more time.
fn less(left: Loop) -> Loop
    ensures { loop_of result ≡ record { count = left.count - 1; step = left.step } }
{
    Loop {
        count: left.count.saturating_sub(1),
        step: left.step,
    }
}

/// The advance of the DO at k, whose variable stands here, and its test.
pub fn advance<'a>(
    alloc: Global,
    control: &Control,
    frame: &Frame<'a>,
    base: &'a Base,
    k: usize,
    here: &mut Here,
    state: &mut State,
) -> Result<Turn, Stop>
    requires statement { k < length control.now.statements.now }
    requires stands { Stands (length control.now.statements.now) here.old }
    ensures turn { (u : p.Routine) → Follows u control.now.statements.now → (first last : p.Term) → (step : Option p.Term) → Turns result here.new state.old state.new (s.advance u (frame_of frame.now) (here_of here.old) k (p.Do base.now first last step)) }
    ensures stands { OnOk result (Stands (length control.now.statements.now) here.new) }
{
    let left = here.get(k);
    let spot = scalar(frame, base)?;
    match add_to(alloc, spot, left.step, state) {
        Ok(()) => {
            here.set(k, less(left));
            tested(control, k, here);
            Ok(Turn::Again)
        }
        Err(stop) => Err(stop),
    }
}

fn is_zero(n: i64) -> bool
    ensures { result ≡ int_eq n (pos 0) }
{
    n == 0
}

/// The beginning of the DO at k, whose variable stands here: its variable is set and its count is fixed.
pub fn begin<'a>(
    alloc: Global,
    frame: &Frame<'a>,
    base: &'a Base,
    k: usize,
    first: i64,
    last: i64,
    step: i64,
    here: &mut Here,
    state: &mut State,
) -> Result<Turn, Stop>
    requires { k < length here.old.loops.items }
    ensures turn { Turns result here.new state.old state.new (c.begun (frame_of frame.now) (here_of here.old) k base.now first last step) }
    ensures stands { OnOk result (Stands (length here.old.loops.items) here.new) }
{
    if is_zero(step) {
        return Err(Stop::Undefined(6));
    }
    let spot = scalar(frame, base)?;
    match state.store(alloc, spot, Value::Integer(first)) {
        Ok(()) => {
            here.set(
                k,
                Loop {
                    count: trips(first, last, step),
                    step,
                },
            );
            here.point = Point::Test(k);
            Ok(Turn::Again)
        }
        Err(stop) => Err(stop),
    }
}

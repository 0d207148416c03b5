//! Runs of units, and their calls.
//!
//! A run of a unit takes turns, a turn runs steps, and a step may call a unit. How deep calls may still go is passed on, and is less in
//! each callee. What a turn printed goes to the sink when it is over, so that no more than a record is ever kept.
ghost use Rattle.std.specs.Prelude.{◌≡◌, ℕ, ◌<◌, List, [], Some, Err, slice_get, length, map, option_map, OnOk};
ghost use Rattle.rn_ports.specs.Causes.{HasCause};
ghost use Rattle.run_model.specs.Acts as a;
ghost use Rattle.run_model.specs.Turns as t;
ghost use Rattle.f77_semantics.specs.Program as program;
ghost use Rattle.f77_semantics.specs.Statements as s;
ghost use Rattle.f77_semantics.specs.Units as r;
ghost use Rattle.f77_semantics.specs.Values.{stored};
ghost use Rattle.f77_values.specs.Tables.{Name};
ghost use Rattle.interp_code.specs.Steps as c;
ghost use Rattle.interp_steps.specs.Frames.{interval_of, frame_of};
ghost use Rattle.interp_steps.specs.Stacks.{stack_of};
ghost use Rattle.interp_steps.specs.Worlds.{world_of};
ghost use Rattle.interp_turns.specs.Places.{here_of, Stands};
ghost use Rattle.interp_turns.specs.Turns.{after_of};
ghost use Rattle.interp_lower.specs.Lines.{IsPiece};
ghost use Rattle.interp_calls.specs.Calls.{Answers, InUnit, Runs};
ghost use Rattle.interp_calls.specs.Entries.{fixed};
ghost use Rattle.interp_calls.specs.Procedures.{Represents};
ghost use Rattle.interp_calls.specs.Sending.{Sends, IsWhole};

use super::answers::{performed, referred};
use super::caller::Caller;
use super::entries::{clear, entered};
use super::halt::Halt;
use super::lines::{Numbered, advance_at, inner_piece, piece, variable};
use super::procedure::{Procedure, place};
use super::sending::{halting, send_after};
use super::shapes::fix_shape;
use f77_tree::Value;
use interp_code::Step;
use interp_lower::DummyArray;
use interp_steps::{Frame, Interval, Operand, State, Stop, pop_passed, step};
use interp_turns::{Here, Point, Turn, finish, tested};
use rn_ports::Sink;
use std::alloc::Global;

/// Calls the unit at this place; at most `depth` calls may stand in each other. What it prints is sent, but for a part where the run is broken off.
#[cycle(runs)]
pub fn call<'p, 'u, O: Sink>(
    alloc: Global,
    procedures: &'p [Procedure<'u>],
    at: usize,
    actuals: &[Interval<'p>],
    depth: usize,
    state: &mut State,
    out: &mut O,
) -> Result<Option<Value>, Halt>
    requires sent { state.old.out.items ≡ [] }
    ensures run { (all : List program.Routine) → (units : r.Program) → Represents procedures.now all units
        → (q : Name) → slice_get all at ≡ Some (units q)
        → Sends result (λ v. a.Fine (option_map stored v)) (world_of state.old) (world_of state.new) (O.written out.old) (O.written out.new)
        (r.meaning units depth q (map interval_of actuals.now)) }
    ensures sent { IsWhole result → state.new.out.items ≡ [] }
    ensures cause { HasCause (O.faults out.old) (O.faults out.new) (result ≡ Err Halt.WriteFault) }
{
    if depth == 0 {
        return Err(Halt::Stop(Stop::Stuck));
    }
    match procedures.get(at) {
        Some(procedure) => {
            let caller = Caller {
                alloc,
                procedures,
                procedure,
                depth: depth - 1,
            };
            run(caller, actuals, state, out)
        }
        None => Err(Halt::Stop(Stop::Stuck)),
    }
}

// The run of a unit on actual arguments.
#[cycle(runs)]
fn run<'p, 'u, O: Sink>(
    caller: Caller<'p, 'u>,
    actuals: &[Interval<'p>],
    state: &mut State,
    out: &mut O,
) -> Result<Option<Value>, Halt>
    requires sent { state.old.out.items ≡ [] }
    ensures run { Runs result (option_map stored) caller.entry (world_of state.old) (world_of state.new) (O.written out.old) (O.written out.new)
        (λ u h. r.run_unit h u (map interval_of actuals.now)) }
    ensures sent { IsWhole result → state.new.out.items ≡ [] }
    ensures cause { HasCause (O.faults out.old) (O.faults out.new) (result ≡ Err Halt.WriteFault) }
{
    clear(caller.procedure, state);
    let mut frame = entered(caller.alloc, caller.procedure, actuals)?;
    run_entered(caller, &mut frame, state, out)
}

// The run of a unit from its entry on.
#[cycle(runs)]
fn run_entered<'p, 'u, O: Sink>(
    caller: Caller<'p, 'u>,
    frame: &mut Frame<'p>,
    state: &mut State,
    out: &mut O,
) -> Result<Option<Value>, Halt>
    requires sent { state.old.out.items ≡ [] }
    ensures run { Runs result (option_map stored) caller.entry (world_of state.old) (world_of state.new) (O.written out.old) (O.written out.new)
        (λ u h v. a.then_do (a.play h (r.entry (frame_of frame.old) u.dummy_arrays) v) (λ f w. t.run_from h (s.turn u f) (r.beginning u) w)) }
    ensures sent { IsWhole result → state.new.out.items ≡ [] }
    ensures cause { HasCause (O.faults out.old) (O.faults out.new) (result ≡ Err Halt.WriteFault) }
{
    match dimension(caller, frame, state, out) {
        Ok(()) => run_turns(caller, frame, state, out),
        Err(halt) => Err(halt),
    }
}

// Evaluates the bounds of the dummy arrays, in the order of the dummies.
#[cycle(runs)]
fn dimension<'p, 'u, O: Sink>(
    caller: Caller<'p, 'u>,
    frame: &mut Frame<'p>,
    state: &mut State,
    out: &mut O,
) -> Result<(), Halt>
    requires sent { state.old.out.items ≡ [] }
    ensures run { Runs result (λ _. frame_of frame.new) caller.entry (world_of state.old) (world_of state.new) (O.written out.old) (O.written out.new)
        (λ u h. a.play h (r.entry (frame_of frame.old) u.dummy_arrays)) }
    ensures sent { IsWhole result → state.new.out.items ≡ [] }
    ensures cause { HasCause (O.faults out.old) (O.faults out.new) (result ≡ Err Halt.WriteFault) }
{
    let procedure = caller.procedure;
    let mut stack = Vec::new(caller.alloc);
    for array in procedure.routine.dummy_arrays.as_slice() {
        match dimension_one(caller, array, frame, &mut stack, state, out) {
            Ok(()) => {}
            Err(halt) => return Err(halt),
        }
    }
    Ok(())
}

// Evaluates the bounds of a dummy array, and fixes its shape.
#[cycle(runs)]
fn dimension_one<'p, 'u, O: Sink>(
    caller: Caller<'p, 'u>,
    array: &'p DummyArray,
    frame: &mut Frame<'p>,
    stack: &mut Vec<Operand<'p>>,
    state: &mut State,
    out: &mut O,
) -> Result<(), Halt>
    requires sent { state.old.out.items ≡ [] }
    ensures run { Runs result (λ _. frame_of frame.new) caller.entry (world_of state.old) (world_of state.new) (O.written out.old) (O.written out.new)
        (λ u h. a.play h (a.and_then (c.steps (frame_of frame.old) array.now.bounds []) (fixed (frame_of frame.old) array.now.dummy))) }
    ensures sent { IsWhole result → state.new.out.items ≡ [] }
    ensures cause { HasCause (O.faults out.old) (O.faults out.new) (result ≡ Err Halt.WriteFault) }
{
    stack.clear();
    let bounds = array.bounds.as_slice();
    match run_steps(caller, frame, bounds, stack, state, out) {
        Ok(()) => halting(fix_shape(caller.alloc, frame, array.dummy, stack)),
        Err(halt) => Err(halt),
    }
}

// Turns from the beginning of a unit, each of which begins a step. A turn takes one of the steps that are left, so there are never more.
#[cycle(runs)]
fn run_turns<'p, 'u, O: Sink>(
    caller: Caller<'p, 'u>,
    frame: &Frame<'p>,
    state: &mut State,
    out: &mut O,
) -> Result<Option<Value>, Halt>
    requires sent { state.old.out.items ≡ [] }
    ensures run { Runs result (option_map stored) caller.entry (world_of state.old) (world_of state.new) (O.written out.old) (O.written out.new)
        (λ u h. t.run_from h (s.turn u (frame_of frame.now)) (r.beginning u)) }
    ensures sent { IsWhole result → state.new.out.items ≡ [] }
    ensures cause { HasCause (O.faults out.old) (O.faults out.new) (result ≡ Err Halt.WriteFault) }
{
    let procedure = caller.procedure;
    let first = procedure.control.first() as usize;
    let mut here = Here::new(caller.alloc, first, procedure.control.statements.len())?;
    let mut stack = Vec::new(caller.alloc);
    let mut more = state.left;
    'turns: loop {
        match state.tick() {
            Ok(()) => {}
            Err(stop) => return Err(Halt::Stop(stop)),
        }
        let taken = take_turn(caller, frame, &mut here, &mut stack, state, out);
        match send_after(taken, state, out) {
            Ok(Turn::Again) => {}
            Ok(Turn::Result(answer)) => return Ok(answer),
            Err(halt) => return Err(halt),
        }
        if more == 0 {
            return Err(Halt::Stop(Stop::Spent));
        }
        more -= 1;
    }
}

#[cycle(runs)]
fn take_turn<'p, 'u, O: Sink>(
    caller: Caller<'p, 'u>,
    frame: &Frame<'p>,
    here: &mut Here,
    stack: &mut Vec<Operand<'p>>,
    state: &mut State,
    out: &mut O,
) -> Result<Turn, Halt>
    requires stands { Stands (length caller.procedure.now.control.statements.now) here.old }
    requires sent { state.old.out.items ≡ [] }
    ensures turn { Runs result (λ y. after_of y here.new) caller.entry (world_of state.old) (world_of state.new) (O.written out.old) (O.written out.new)
        (λ u h. a.play h (s.turn u (frame_of frame.now) (here_of here.old))) }
    ensures stands { OnOk result (Stands (length caller.entry.procedure.now.control.statements.now) here.new) }
    ensures cause { HasCause (O.faults out.old) (O.faults out.new) (result ≡ Err Halt.WriteFault) }
{
    let procedure = caller.procedure;
    match here.point {
        Point::At(k) => match piece(procedure, k) {
            Some(piece) => {
                let numbered = Numbered { number: k, piece };
                perform(caller, frame, numbered, here, stack, state, out)
            }
            None => Err(Halt::Stop(Stop::Stuck)),
        },
        Point::Inside(k) => match inner_piece(procedure, k) {
            Some(inner) => {
                let numbered = Numbered {
                    number: k,
                    piece: inner,
                };
                let turn = perform(caller, frame, numbered, here, stack, state, out);
                turn
            }
            None => Err(Halt::Stop(Stop::Stuck)),
        },
        Point::Test(k) => {
            tested(&procedure.control, k, here);
            Ok(Turn::Again)
        }
        Point::Advance(k) => halting(advance_at(caller.alloc, procedure, frame, k, here, state)),
    }
}

// The turn of a statement: its steps, and its end.
#[cycle(runs)]
fn perform<'p, 'u, O: Sink>(
    caller: Caller<'p, 'u>,
    frame: &Frame<'p>,
    numbered: Numbered<'p>,
    here: &mut Here,
    stack: &mut Vec<Operand<'p>>,
    state: &mut State,
    out: &mut O,
) -> Result<Turn, Halt>
    requires statement { numbered.number < length caller.procedure.now.control.statements.now }
    requires stands { Stands (length caller.procedure.now.control.statements.now) here.old }
    requires sent { state.old.out.items ≡ [] }
    ensures turn { (x : program.Statement) → IsPiece numbered.entry.piece.now x
        → Runs result (λ y. after_of y here.new) caller.entry (world_of state.old) (world_of state.new) (O.written out.old) (O.written out.new)
        (λ u h. a.play h (s.perform u (frame_of frame.now) (here_of here.old) numbered.entry.number x)) }
    ensures stands { OnOk result (Stands (length caller.entry.procedure.now.control.statements.now) here.new) }
    ensures cause { HasCause (O.faults out.old) (O.faults out.new) (result ≡ Err Halt.WriteFault) }
{
    stack.clear();
    let procedure = caller.procedure;
    let piece = numbered.piece;
    let steps = piece.steps.as_slice();
    match run_steps(caller, frame, steps, stack, state, out) {
        Ok(()) => {
            let variable = variable(&procedure.routine);
            let operands = stack.as_slice();
            halting(finish(
                caller.alloc,
                &procedure.control,
                frame,
                variable,
                numbered.number,
                &piece.ending,
                operands,
                here,
                state,
            ))
        }
        Err(halt) => Err(halt),
    }
}

// Steps one after another.
#[cycle(runs)]
fn run_steps<'p, 'u, O: Sink>(
    caller: Caller<'p, 'u>,
    frame: &Frame<'p>,
    steps: &'p [Step],
    stack: &mut Vec<Operand<'p>>,
    state: &mut State,
    out: &mut O,
) -> Result<(), Halt>
    requires sent { state.old.out.items ≡ [] }
    ensures run { Runs result (λ _. stack_of stack.new.items) caller.entry (world_of state.old) (world_of state.new) (O.written out.old) (O.written out.new)
        (λ u h. a.play h (c.steps (frame_of frame.now) steps.now (stack_of stack.old.items))) }
    ensures sent { IsWhole result → state.new.out.items ≡ [] }
    ensures cause { HasCause (O.faults out.old) (O.faults out.new) (result ≡ Err Halt.WriteFault) }
{
    for one in steps {
        match take_step(caller, frame, one, stack, state, out) {
            Ok(()) => {}
            Err(halt) => return Err(halt),
        }
    }
    Ok(())
}

#[cycle(runs)]
fn take_step<'p, 'u, O: Sink>(
    caller: Caller<'p, 'u>,
    frame: &Frame<'p>,
    one: &'p Step,
    stack: &mut Vec<Operand<'p>>,
    state: &mut State,
    out: &mut O,
) -> Result<(), Halt>
    requires sent { state.old.out.items ≡ [] }
    ensures run { Runs result (λ _. stack_of stack.new.items) caller.entry (world_of state.old) (world_of state.new) (O.written out.old) (O.written out.new)
        (λ u h. a.play h (c.step (frame_of frame.now) one.now (stack_of stack.old.items))) }
    ensures sent { IsWhole result → state.new.out.items ≡ [] }
    ensures cause { HasCause (O.faults out.old) (O.faults out.new) (result ≡ Err Halt.WriteFault) }
{
    match one {
        Step::Refer(site) => {
            let answer = call_at(caller, *site, stack, state, out);
            referred(answer, stack)
        }
        Step::Perform(site) => {
            let end = call_at(caller, *site, stack, state, out);
            performed(end)
        }
        _ => halting(step(caller.alloc, frame, one, stack, state)),
    }
}

// Calls at a site, on the actual arguments that end the stack.
#[cycle(runs)]
fn call_at<'p, 'u, O: Sink>(
    caller: Caller<'p, 'u>,
    site: usize,
    stack: &mut Vec<Operand<'p>>,
    state: &mut State,
    out: &mut O,
) -> Result<Option<Value>, Halt>
    requires sent { state.old.out.items ≡ [] }
    ensures run { InUnit caller.entry (λ u h. Answers result h site (stack_of stack.old.items) (stack_of stack.new.items)
        (world_of state.old) (world_of state.new) (O.written out.old) (O.written out.new)) }
    ensures sent { IsWhole result → state.new.out.items ≡ [] }
    ensures cause { HasCause (O.faults out.old) (O.faults out.new) (result ≡ Err Halt.WriteFault) }
{
    let at = place(caller.procedure, site);
    match pop_passed(caller.alloc, stack)? {
        Some(actuals) => call(
            caller.alloc,
            caller.procedures,
            at,
            actuals.as_slice(),
            caller.depth,
            state,
            out,
        ),
        None => Err(Halt::Stop(Stop::Stuck)),
    }
}

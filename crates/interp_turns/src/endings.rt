//! The ends of statements.
ghost use Rattle.std.specs.Prelude.{◌≡◌, ℕ, ◌<◌, [], length, flat_map, option_map, OnOk, if◌then◌else◌};
ghost use Rattle.run_model.specs.Acts as a;
ghost use Rattle.f77_flow.specs.Blocks as b;
ghost use Rattle.f77_flow.specs.Graph as g;
ghost use Rattle.f77_semantics.specs.Expressions as e;
ghost use Rattle.f77_semantics.specs.Program as p;
ghost use Rattle.f77_semantics.specs.Statements as s;
ghost use Rattle.interp_cells.specs.Spots.{loc_of};
ghost use Rattle.interp_code.specs.Endings as c;
ghost use Rattle.interp_code.specs.Steps.{operands_onto, said};
ghost use Rattle.interp_steps.specs.Frames.{frame_of};
ghost use Rattle.interp_steps.specs.Stacks.{stack_of};
ghost use Rattle.interp_steps.specs.Stops.{Gives};
ghost use Rattle.interp_turns.specs.Flows.{Follows, variable_of};
ghost use Rattle.interp_turns.specs.Operands as o;
ghost use Rattle.interp_turns.specs.Places.{here_of, Stands};
ghost use Rattle.interp_turns.specs.Turns.{Turns, after_of};

use super::flow::after;
use super::here::{Here, Point};
use super::loops::begin;
use super::operands::{assigned, nothing, number, three, truth};
use super::record::say_record_from;
use super::returns::answer;
use super::turn::Turn;
use f77_flow::Control;
use f77_semantics::Base;
use f77_tree::{List, Ty, Value};
use interp_cells::Spot;
use interp_code::Ending;
use interp_steps::{Frame, Operand, State, Stop};
use std::alloc::Global;

fn jump(target: u32, here: &mut Here, stack: &[Operand]) -> Result<Turn, Stop>
    ensures turn { Gives result (λ t. after_of t here.new) (a.and_then (o.nothing (stack_of stack.now)) (λ _. s.to (g.At target) (here_of here.old))) }
    ensures stands { (n : ℕ) → Stands n here.old → Stands n here.new }
{
    nothing(stack)?;
    here.point = Point::At(target as usize);
    Ok(Turn::Again)
}

fn next(control: &Control, k: usize, here: &mut Here, stack: &[Operand]) -> Result<Turn, Stop>
    requires { k < length control.now.statements.now }
    ensures turn { Gives result (λ t. after_of t here.new) (a.and_then (o.nothing (stack_of stack.now)) (λ _. s.to (g.after control.now.statements.now k) (here_of here.old))) }
    ensures stands { Stands (length control.now.statements.now) here.old → Stands (length control.now.statements.now) here.new }
{
    nothing(stack)?;
    here.point = after(control, k);
    Ok(Turn::Again)
}

fn branch(
    control: &Control,
    k: usize,
    otherwise: u32,
    here: &mut Here,
    stack: &[Operand],
) -> Result<Turn, Stop>
    requires { k < length control.now.statements.now }
    ensures turn { Gives result (λ t. after_of t here.new) (a.and_then (o.truth (stack_of stack.now)) (λ c. s.to (g.At (if c then b.below control.now.statements.now k else otherwise)) (here_of here.old))) }
    ensures stands { (n : ℕ) → Stands n here.old → Stands n here.new }
{
    let target = if truth(stack)? {
        control.below(k)
    } else {
        otherwise
    };
    here.point = Point::At(target as usize);
    Ok(Turn::Again)
}

fn guard(control: &Control, k: usize, here: &mut Here, stack: &[Operand]) -> Result<Turn, Stop>
    requires { k < length control.now.statements.now }
    ensures turn { Gives result (λ t. after_of t here.new) (a.and_then (o.truth (stack_of stack.now)) (λ c. s.to (if c then g.Inside k else g.after control.now.statements.now k) (here_of here.old))) }
    ensures stands { Stands (length control.now.statements.now) here.old → Stands (length control.now.statements.now) here.new }
{
    here.point = if truth(stack)? {
        Point::Inside(k)
    } else {
        after(control, k)
    };
    Ok(Turn::Again)
}

fn by_sign(x: i64, negative: u32, zero: u32, positive: u32) -> u32
    ensures { result ≡ s.by_sign x negative zero positive }
{
    if x < 0 {
        negative
    } else if x == 0 {
        zero
    } else {
        positive
    }
}

fn sign(
    negative: u32,
    zero: u32,
    positive: u32,
    here: &mut Here,
    stack: &[Operand],
) -> Result<Turn, Stop>
    ensures turn { Gives result (λ t. after_of t here.new) (a.and_then (o.number (stack_of stack.now)) (λ x. s.to (g.At (s.by_sign x negative zero positive)) (here_of here.old))) }
    ensures stands { (n : ℕ) → Stands n here.old → Stands n here.new }
{
    let x = number(stack)?;
    here.point = Point::At(by_sign(x, negative, zero, positive) as usize);
    Ok(Turn::Again)
}

// The target of a computed GO TO, counted from 1.
fn chosen(targets: &[u32], x: i64) -> Option<u32>
    ensures { result ≡ s.chosen targets.now x }
{
    if x < 1 {
        return None;
    }
    targets.get((x - 1) as usize).copied()
}

fn choose(
    control: &Control,
    k: usize,
    targets: &List<u32>,
    here: &mut Here,
    stack: &[Operand],
) -> Result<Turn, Stop>
    requires { k < length control.now.statements.now }
    ensures turn { Gives result (λ t. after_of t here.new) (a.and_then (o.number (stack_of stack.now)) (λ x. s.to_chosen (s.chosen targets.now x) (g.after control.now.statements.now k) (here_of here.old))) }
    ensures stands { Stands (length control.now.statements.now) here.old → Stands (length control.now.statements.now) here.new }
{
    let x = number(stack)?;
    here.point = match chosen(targets.as_slice(), x) {
        Some(target) => Point::At(target as usize),
        None => after(control, k),
    };
    Ok(Turn::Again)
}

fn halt(here: &Here, stack: &[Operand]) -> Result<Turn, Stop>
    ensures { Gives result (λ t. after_of t here.now) (a.and_then (o.nothing (stack_of stack.now)) (λ _. a.Fail (a.Ended 0))) }
{
    nothing(stack)?;
    Err(Stop::Ended(0))
}

// Stores a value and goes on behind statement k.
fn store<'a>(
    alloc: Global,
    control: &Control,
    k: usize,
    value: Value,
    spot: Spot<'a>,
    here: &mut Here,
    state: &mut State,
) -> Result<Turn, Stop>
    requires { k < length control.now.statements.now }
    ensures turn { Turns result here.new state.old state.new (a.and_then (e.store (loc_of spot.entry) value) (λ _. s.to (g.after control.now.statements.now k) (here_of here.old))) }
    ensures stands { Stands (length control.now.statements.now) here.old → Stands (length control.now.statements.now) here.new }
{
    match state.store(alloc, spot, value) {
        Ok(()) => {
            here.point = after(control, k);
            Ok(Turn::Again)
        }
        Err(stop) => Err(stop),
    }
}

// The end of an assignment.
fn assign(
    alloc: Global,
    control: &Control,
    k: usize,
    stack: &[Operand],
    here: &mut Here,
    state: &mut State,
) -> Result<Turn, Stop>
    requires { k < length control.now.statements.now }
    ensures turn { Turns result here.new state.old state.new (a.and_then (o.assigned (stack_of stack.now)) (λ p. a.and_then (e.store p.1 p.0) (λ _. s.to (g.after control.now.statements.now k) (here_of here.old)))) }
    ensures stands { Stands (length control.now.statements.now) here.old → Stands (length control.now.statements.now) here.new }
{
    match assigned(stack) {
        Ok(pair) => store(alloc, control, k, pair.0, pair.1, here, state),
        Err(stop) => Err(stop),
    }
}

// The beginning of a DO.
fn count<'a>(
    alloc: Global,
    frame: &Frame<'a>,
    base: &'a Base,
    k: usize,
    stack: &[Operand],
    here: &mut Here,
    state: &mut State,
) -> Result<Turn, Stop>
    requires { k < length here.old.loops.items }
    ensures turn { Turns result here.new state.old state.new (a.and_then (o.three (stack_of stack.now)) (λ m. c.begun (frame_of frame.now) (here_of here.old) k base.now m.0 m.1 m.2)) }
    ensures stands { OnOk result (Stands (length here.old.loops.items) here.new) }
{
    match three(stack) {
        Ok(numbers) => begin(
            alloc, frame, base, k, numbers.0, numbers.1, numbers.2, here, state,
        ),
        Err(stop) => Err(stop),
    }
}

// The return of a unit.
fn leave<'a>(
    frame: &Frame<'a>,
    variable: Option<(Ty, &'a Base)>,
    stack: &[Operand],
    here: &Here,
    state: &State,
) -> Result<Turn, Stop>
    ensures { Turns result here.now state.now state.now (a.and_then (o.nothing (stack_of stack.now)) (λ _. s.return (frame_of frame.now) (option_map variable_of variable.entry))) }
{
    match nothing(stack) {
        Ok(()) => answer(frame, variable, here, state),
        Err(stop) => Err(stop),
    }
}

// Writes the operands as a record and goes on behind statement k.
fn write(
    control: &Control,
    k: usize,
    here: &mut Here,
    stack: &[Operand],
    state: &mut State,
) -> Result<Turn, Stop>
    requires { k < length control.now.statements.now }
    ensures turn { Turns result here.new state.old state.new (a.and_then (s.say_record (flat_map said (operands_onto (stack_of stack.now) []))) (λ _. s.to (g.after control.now.statements.now k) (here_of here.old))) }
    ensures stands { Stands (length control.now.statements.now) here.old → Stands (length control.now.statements.now) here.new }
{
    say_record_from(false, stack, state)?;
    here.point = after(control, k);
    Ok(Turn::Again)
}

/// What the end of statement k makes of the operands that its steps left: where a function's result stands, its return reads it.
pub fn finish<'a>(
    alloc: Global,
    control: &Control,
    frame: &Frame<'a>,
    variable: Option<(Ty, &'a Base)>,
    k: usize,
    ending: &'a Ending,
    stack: &[Operand<'a>],
    here: &mut Here,
    state: &mut State,
) -> Result<Turn, Stop>
    requires statement { k < length control.now.statements.now }
    requires stands { Stands (length control.now.statements.now) here.old }
    ensures turn { (u : p.Routine) → Follows u control.now.statements.now → u.result ≡ option_map variable_of variable.entry → Turns result here.new state.old state.new (c.finish u (frame_of frame.now) (here_of here.old) k ending.now (stack_of stack.now)) }
    ensures stands { OnOk result (Stands (length control.now.statements.now) here.new) }
{
    match ending {
        Ending::Store => assign(alloc, control, k, stack, here, state),
        Ending::Branch(otherwise) => branch(control, k, *otherwise, here, stack),
        Ending::Guard => guard(control, k, here, stack),
        Ending::Sign(negative, zero, positive) => { sign(*negative, *zero, *positive, here, stack) }
        Ending::Jump(target) => jump(*target, here, stack),
        Ending::Choose(targets) => choose(control, k, targets, here, stack),
        Ending::Count(base) => count(alloc, frame, base, k, stack, here, state),
        Ending::Next => next(control, k, here, stack),
        Ending::Leave => leave(frame, variable, stack, here, state),
        Ending::Halt => halt(here, stack),
        Ending::Write => write(control, k, here, stack, state),
        Ending::Nowhere => Err(Stop::Stuck),
    }
}

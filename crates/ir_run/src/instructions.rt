//! Instructions, one after another.
ghost use Rattle.run_model.specs.Acts as a;
ghost use Rattle.interp_steps.specs.Stops.{Ends, Gives};
ghost use Rattle.interp_steps.specs.Worlds.{world_of};
ghost use Rattle.ir_core.specs.Runs as r;
ghost use Rattle.ir_core.specs.declared.instruction.Instr.TheVariants as i;
ghost use Rattle.ir_run.specs.Images.{activation_of, content_of, values_of};

use super::callees::Callees;
use super::calls::call;
use super::memory::{keep, load, print_truth, print_word, read, say, store};
use super::spots::{Activation, pointed};
use super::values::{Content, Values, address, calculate, held};
use interp_steps::{State, Stop};
use ir_core::{Calc, Instr, Spot};
use std::alloc::Global;

fn set<'a>(to: u32, content: Content<'a>, values: &mut Values<'a>) -> Result<(), Stop>
    ensures { Gives result (λ _. values_of values.new) (a.Done (r.set to (content_of content.entry) (values_of values.old))) }
{
    values.set(to, content)?;
    Ok(())
}

fn copy(to: u32, from: u32, values: &mut Values) -> Result<(), Stop>
    ensures { (f : r.Activation) → Gives result (λ _. values_of values.new) (r.instruction f (i.Copy to from) (values_of values.old)) }
{
    let content = held(values.temporaries.as_slice(), from)?;
    values.set(to, content)?;
    Ok(())
}

fn compute(to: u32, calc: Calc, left: u32, right: u32, values: &mut Values) -> Result<(), Stop>
    ensures { (f : r.Activation) → Gives result (λ _. values_of values.new) (r.instruction f (i.Calc to calc left right) (values_of values.old)) }
{
    let x = calculate(values.temporaries.as_slice(), calc, left, right)?;
    values.set(to, Content::Word(x))?;
    Ok(())
}

fn point<'a>(
    activation: &Activation<'a>,
    to: u32,
    spot: &'a Spot,
    values: &mut Values<'a>,
) -> Result<(), Stop>
    ensures { Gives result (λ _. values_of values.new) (r.instruction (activation_of activation.now) (i.Address to spot.now) (values_of values.old)) }
{
    let address = pointed(activation, values.temporaries.as_slice(), spot)?;
    values.set(to, Content::Address(address))?;
    Ok(())
}

fn pass(position: u32, from: u32, values: &mut Values) -> Result<(), Stop>
    ensures { (f : r.Activation) → Gives result (λ _. values_of values.new) (r.instruction f (i.Argument position from) (values_of values.old)) }
{
    let address = address(values.temporaries.as_slice(), from)?;
    values.set_argument(position, address)?;
    Ok(())
}

fn instruction<'a, C: Callees>(
    alloc: Global,
    callees: &C,
    activation: &Activation<'a>,
    instruction: &'a Instr,
    values: &mut Values<'a>,
    state: &mut State,
) -> Result<(), Stop>
    ensures { Ends result (λ _. values_of values.new) (world_of state.new) (a.play (C.handler callees.now) (r.instruction (activation_of activation.now) instruction.now (values_of values.old)) (world_of state.old)) }
{
    match instruction {
        Instr::Const(to, x) => set(*to, Content::Word(*x), values),
        Instr::Copy(to, from) => copy(*to, *from, values),
        Instr::Load(to, spot) => load(activation, *to, spot, values, state),
        Instr::Store(spot, ty, from) => store(alloc, activation, spot, *ty, *from, values, state),
        Instr::Calc(to, calc, left, right) => compute(*to, *calc, *left, *right, values),
        Instr::Address(to, spot) => point(activation, *to, spot, values),
        Instr::Fresh(to, seat, ty, from) => {
            keep(alloc, activation, *to, *seat, (*ty, *from), values, state)
        }
        Instr::Argument(position, from) => pass(*position, *from, values),
        Instr::Call(site, to) => call(alloc, callees, *site, *to, values, state),
        Instr::PrintInt(from) => print_word(*from, values, state),
        Instr::PrintTruth(from) => print_truth(*from, values, state),
        Instr::PrintByte(byte) => say(&[*byte], values, state),
        Instr::EndLine => say(b"\n", values, state),
        Instr::Read(to) => read(*to, values, state),
    }
}

/// Does the instructions in their order.
pub fn instructions<'a, C: Callees>(
    alloc: Global,
    callees: &C,
    activation: &Activation<'a>,
    code: &'a [Instr],
    values: &mut Values<'a>,
    state: &mut State,
) -> Result<(), Stop>
    ensures { Ends result (λ _. values_of values.new) (world_of state.new) (a.play (C.handler callees.now) (r.instructions (activation_of activation.now) code.now (values_of values.old)) (world_of state.old)) }
{
    for one in code {
        match instruction(alloc, callees, activation, one, values, state) {
            Ok(()) => {}
            Err(stop) => return Err(stop),
        }
    }
    Ok(())
}

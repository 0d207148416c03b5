//! Instructions that read or change the world, but for calls.
ghost use Rattle.std.specs.Prelude.{◌≡◌};
ghost use Rattle.run_model.specs.Acts as a;
ghost use Rattle.f77_semantics.specs.Values.{stored};
ghost use Rattle.interp_cells.specs.Spots.{loc_of};
ghost use Rattle.ir_core.specs.Runs as r;
ghost use Rattle.ir_core.specs.Words.{word_of};
ghost use Rattle.ir_core.specs.declared.instruction.Instr.TheVariants as i;
ghost use Rattle.ir_run.specs.Does.{Does};
ghost use Rattle.ir_run.specs.Images.{activation_of, values_of};

use super::spots::{Activation, fresh, fresh_cell, location};
use super::values::{Content, Values, truth, value, word};
use super::words::word_of;
use f77_tree::{Ty, Value};
use interp_cells::Spot as Cell;
use interp_steps::{State, Stop};
use ir_core::{Seat, Spot};
use itoa::Buffer;
use std::alloc::Global;

fn load_at(to: u32, at: Cell, values: &mut Values, state: &State) -> Result<(), Stop>
    ensures { Does result values.new state.now state.now (a.Get (loc_of at.entry) (λ x. a.Done (r.set to (r.Word (word_of x)) (values_of values.old)))) }
{
    match state.storage.get(at) {
        Some(value) => {
            values.set(to, Content::Word(word_of(value)))?;
            Ok(())
        }
        None => Err(Stop::Undefined(1)),
    }
}

/// Sets a temporary to the word of what is stored at a spot.
pub fn load<'a>(
    activation: &Activation<'a>,
    to: u32,
    spot: &'a Spot,
    values: &mut Values<'a>,
    state: &State,
) -> Result<(), Stop>
    ensures { Does result values.new state.now state.now (r.instruction (activation_of activation.now) (i.Load to spot.now) (values_of values.old)) }
{
    match location(activation, values.temporaries.as_slice(), spot) {
        Ok(at) => load_at(to, at, values, state),
        Err(stop) => Err(stop),
    }
}

fn store_at(
    alloc: Global,
    at: Cell,
    value: Value,
    values: &Values,
    state: &mut State,
) -> Result<(), Stop>
    ensures { Does result values.now state.old state.new (a.Put (loc_of at.entry) (stored value) (a.Done (values_of values.now))) }
{
    match state.store(alloc, at, value) {
        Ok(()) => Ok(()),
        Err(stop) => Err(stop),
    }
}

fn store_value(
    alloc: Global,
    at: Cell,
    ty: Ty,
    from: u32,
    values: &Values,
    state: &mut State,
) -> Result<(), Stop>
    ensures { Does result values.now state.old state.new (a.and_then (r.value (values_of values.now).temporaries ty from) (λ x. a.Put (loc_of at.entry) x (a.Done (values_of values.now)))) }
{
    match value(values.temporaries.as_slice(), ty, from) {
        Ok(value) => store_at(alloc, at, value, values, state),
        Err(stop) => Err(stop),
    }
}

/// Stores a temporary at a spot, as a value of the type.
pub fn store<'a>(
    alloc: Global,
    activation: &Activation<'a>,
    spot: &'a Spot,
    ty: Ty,
    from: u32,
    values: &Values<'a>,
    state: &mut State,
) -> Result<(), Stop>
    ensures { Does result values.now state.old state.new (r.instruction (activation_of activation.now) (i.Store spot.now ty from) (values_of values.now)) }
{
    match location(activation, values.temporaries.as_slice(), spot) {
        Ok(at) => store_value(alloc, at, ty, from, values, state),
        Err(stop) => Err(stop),
    }
}

fn keep_value<'a>(
    alloc: Global,
    activation: &Activation<'a>,
    to: u32,
    seat: Seat,
    value: Value,
    values: &mut Values<'a>,
    state: &mut State,
) -> Result<(), Stop>
    ensures { Does result values.new state.old state.new (a.Put (r.at (r.fresh (activation_of activation.now) seat) 0) (stored value) (a.Done (r.set to (r.Address (r.fresh (activation_of activation.now) seat)) (values_of values.old)))) }
{
    match state.store(alloc, fresh_cell(activation, seat), value) {
        Ok(()) => {
            values.set(to, Content::Address(fresh(activation, seat)))?;
            Ok(())
        }
        Err(stop) => Err(stop),
    }
}

/// Stores a temporary into the cell of an actual argument without a location, and sets another to its address.
pub fn keep<'a>(
    alloc: Global,
    activation: &Activation<'a>,
    to: u32,
    seat: Seat,
    typed: (Ty, u32),
    values: &mut Values<'a>,
    state: &mut State,
) -> Result<(), Stop>
    ensures { Does result values.new state.old state.new (r.instruction (activation_of activation.now) (i.Fresh to seat typed.0 typed.1) (values_of values.old)) }
{
    let (ty, from) = typed;
    match value(values.temporaries.as_slice(), ty, from) {
        Ok(value) => keep_value(alloc, activation, to, seat, value, values, state),
        Err(stop) => Err(stop),
    }
}

/// Sets a temporary to the next integer of the input.
pub fn read(to: u32, values: &mut Values, state: &mut State) -> Result<(), Stop>
    ensures { Does result values.new state.old state.new (a.Take (λ x. a.Done (r.set to (r.Word x) (values_of values.old)))) }
{
    match state.input.split_first() {
        Some((first, others)) => {
            state.input = others;
            values.set(to, Content::Word(*first))?;
            Ok(())
        }
        None => Err(Stop::Ended(3)),
    }
}

/// Prints bytes.
pub fn say(bytes: &[u8], values: &Values, state: &mut State) -> Result<(), Stop>
    ensures { Does result values.now state.old state.new (a.Say bytes.now (a.Done (values_of values.now))) }
{
    state.say(bytes)?;
    Ok(())
}

/// Prints the word of a temporary.
pub fn print_word(from: u32, values: &Values, state: &mut State) -> Result<(), Stop>
    ensures { (f : r.Activation) → Does result values.now state.old state.new (r.instruction f (i.PrintInt from) (values_of values.now)) }
{
    match word(values.temporaries.as_slice(), from) {
        Ok(x) => say(Buffer::new().format(x).as_bytes(), values, state),
        Err(stop) => Err(stop),
    }
}

fn letter(truth: bool) -> u8
    ensures { result ≡ r.letter truth }
{
    if truth { b'T' } else { b'F' }
}

/// Prints the truth value of a temporary.
pub fn print_truth(from: u32, values: &Values, state: &mut State) -> Result<(), Stop>
    ensures { (f : r.Activation) → Does result values.now state.old state.new (r.instruction f (i.PrintTruth from) (values_of values.now)) }
{
    match truth(values.temporaries.as_slice(), from) {
        Ok(truth) => say(&[letter(truth)], values, state),
        Err(stop) => Err(stop),
    }
}

//! Elements of arrays.
ghost use Rattle.std.specs.Prelude.{◌≡◌, ◌-ℤ◌, ◌++◌, ℕ, IfOk, map};
ghost use Rattle.run_model.specs.Acts as a;
ghost use Rattle.f77_semantics.specs.Values as v;
ghost use Rattle.f77_semantics.specs.Expressions as e;
ghost use Rattle.interp_steps.specs.Frames.{frame_of};
ghost use Rattle.interp_steps.specs.Stops.{Gives};

use super::frame::Frame;
use super::stop::Stop;
use f77_semantics::{Array, Bounds, Extent};
use f77_tree::{List, Value};
use std::alloc::{AllocError, Global};

fn distance(subscript: i64, extent: &Extent) -> Option<u64>
    ensures { result ≡ e.distance (subscript -ℤ extent.now.lower) extent.now.size }
{
    if subscript < extent.lower {
        return None;
    }
    let far = subscript.abs_diff(extent.lower);
    if far < extent.size { Some(far) } else { None }
}

fn with_others(size: u64, far: Option<u64>, others: Option<u64>) -> Result<Option<u64>, AllocError>
    ensures { IfOk result (λ k. k ≡ e.with_others size far others) }
{
    match (far, others) {
        (Some(far), Some(others)) => {
            let rows = size.checked_mul(others).ok_or(AllocError)?;
            Ok(Some(far.checked_add(rows).ok_or(AllocError)?))
        }
        _ => Ok(None),
    }
}

// The number of an element in its array's sequence. What can't be counted can't be stored.
fn numbered(extents: &[Extent], subscripts: &[i64]) -> Result<Option<u64>, AllocError>
    ensures { IfOk result (λ k. k ≡ e.numbered extents.now subscripts.now) }
{
    match (extents.split_first(), subscripts.split_first()) {
        (None, None) => Ok(Some(0)),
        (Some((extent, extents)), Some((subscript, subscripts))) => {
            let others = numbered(extents, subscripts)?;
            with_others(extent.size, distance(*subscript, extent), others)
        }
        _ => Ok(None),
    }
}

static NO_SHAPE: [Extent; 1] = [Extent { lower: 1, size: 0 }];

// The bounds of an array.
fn shape<'b>(frame: &'b Frame, bounds: &'b Bounds) -> &'b [Extent]
    ensures { result.now ≡ e.shape (frame_of frame.now) bounds.now }
{
    match bounds {
        Bounds::Known(extents) => extents.as_slice(),
        Bounds::AtEntry(k) => match frame.shapes.get(*k as usize) {
            Some(Some(extents)) => extents.as_slice(),
            _ => &NO_SHAPE,
        },
    }
}

// Puts values that are all numbers behind others.
#[tactic(auto, using(crate::proofs::Numbers::numbers))]
fn push_numbers(all: &mut List<i64>, values: &[Value]) -> Result<(), Stop>
    ensures { Gives result (λ _. all.new) (a.and_then (e.integers values.now) (λ xs. a.Done (all.old ++ xs))) }
{
    match values.split_first() {
        None => Ok(()),
        Some((Value::Integer(n), others)) => {
            all.push(*n)?;
            push_numbers(all, others)
        }
        Some((Value::Logical(_), _)) => Err(Stop::Stuck),
    }
}

/// Values that are all numbers.
#[tactic(auto, using(crate::proofs::Numbers::numbers))]
pub fn integers(alloc: Global, values: &[Value]) -> Result<List<i64>, Stop>
    ensures { Gives result (λ xs. xs) (e.integers values.now) }
{
    let mut all = List::new(alloc);
    match push_numbers(&mut all, values) {
        Ok(()) => Ok(all),
        Err(stop) => Err(stop),
    }
}

fn place_in(shape: &[Extent], subscripts: &[i64]) -> Result<usize, Stop>
    ensures { Gives result (λ k. k) (v.or_fail (a.Undefined 2) (e.numbered shape.now subscripts.now)) }
{
    match numbered(shape, subscripts)? {
        Some(k) => Ok(k as usize),
        None => Err(Stop::Undefined(2)),
    }
}

/// The place in an array's sequence that subscripts name.
pub fn element(alloc: Global, frame: &Frame, array: &Array, values: &[Value]) -> Result<usize, Stop>
    ensures { Gives result (λ k. k) (e.element (frame_of frame.now) array.now values.now) }
{
    let subscripts = integers(alloc, values)?;
    place_in(shape(frame, &array.bounds), subscripts.as_slice())
}

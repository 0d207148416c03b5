//! Where the value of items turns.
ghost use Rattle.std.specs.Prelude.{◌≡◌, IfOk, false, if◌then◌else◌, Some, None};
ghost use Rattle.std.specs.Ordering.{is_gt};
ghost use Rattle.iv_set.specs.Places.{cmp, place_of};
ghost use Rattle.item_maps.specs.Steps.{same_truth, same_value, same};
ghost use Rattle.item_maps.specs.Walks.{spread};

use f77_tree::{Item, Value};
use iv_set::{Bound, compare_to_item};
use std::alloc::{AllocError, Global};
use std::cmp::Ordering;

/// The value of the items from a place on; none where they have no value.
#[derive(Drop)]
pub struct Step {
    pub at: Bound,
    pub value: Option<Value>,
}

impl Step {
    /// The same step again.
    pub fn copy(&self, alloc: Global) -> Result<Step, AllocError>
        ensures { IfOk result (λ again. again ≡ self.now) }
    {
        Ok(Step {
            at: self.at.copy(alloc)?,
            value: self.value,
        })
    }
}

fn same_truth(truth: bool, other: bool) -> bool
    ensures { result ≡ same_truth truth other }
{
    if truth { other } else { !other }
}

fn same_value(value: Value, other: Value) -> bool
    ensures { result ≡ same_value value other }
{
    match (value, other) {
        (Value::Integer(number), Value::Integer(with)) => number == with,
        (Value::Logical(truth), Value::Logical(with)) => same_truth(truth, with),
        (Value::Integer(_), Value::Logical(_)) => false,
        (Value::Logical(_), Value::Integer(_)) => false,
    }
}

/// Whether both are the same value, or none.
pub fn same(value: Option<Value>, other: Option<Value>) -> bool
    ensures { result ≡ same value other }
{
    match (value, other) {
        (Some(value), Some(other)) => same_value(value, other),
        (None, None) => true,
        (Some(_), None) => false,
        (None, Some(_)) => false,
    }
}

/// Whether the step stands behind the item.
pub fn is_above(step: &Step, item: &Item) -> bool
    ensures { result ≡ is_gt (cmp step.now.at (place_of item.now)) }
{
    match compare_to_item(&step.at, item) {
        Ordering::Greater => true,
        _ => false,
    }
}

/// The same steps again.
pub fn copies(alloc: Global, steps: &[Step]) -> Result<Vec<Step>, AllocError>
    ensures { IfOk result (λ all. all.items ≡ steps.now) }
{
    let mut all = Vec::with_capacity(alloc, steps.len())?;
    for step in steps {
        all.push(step.copy(alloc)?)?;
    }
    Ok(all)
}

fn value_if(inside: bool, value: Value) -> Option<Value>
    ensures { result ≡ (if inside then Some value else None) }
{
    if inside { Some(value) } else { None }
}

/// The steps of a set whose members all have the value.
pub fn spread(alloc: Global, bounds: &[Bound], value: Value) -> Result<Vec<Step>, AllocError>
    ensures { IfOk result (λ all. all.items ≡ spread value false bounds.now) }
{
    let mut all = Vec::with_capacity(alloc, bounds.len())?;
    let mut inside = false;
    for bound in bounds {
        inside = !inside;
        all.push(Step {
            at: bound.copy(alloc)?,
            value: value_if(inside, value),
        })?;
    }
    Ok(all)
}

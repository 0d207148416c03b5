//! Where slots stand, and the bounds of arrays.
ghost use Rattle.std.specs.Prelude.{◌≡◌, map, unwrap_or, pos, IfOk};
ghost use Rattle.f77_semantics.specs.Terms as t;
ghost use Rattle.f77_values.specs.Sizes as s;

use f77_semantics::{Array, Base, Bounds, Extent};
use f77_store::{Area, Slot};
use f77_tree::{Expr, List, Value};
use f77_values::{Table, evaluate};
use std::alloc::{AllocError, Global};

/// The same place again.
pub fn copy_base(alloc: Global, base: &Base) -> Result<Base, AllocError>
    ensures { IfOk result (λ again. again ≡ base.now) }
{
    match base {
        Base::Dummy(k) => Ok(Base::Dummy(*k)),
        Base::Own(from) => Ok(Base::Own(*from)),
        Base::Common(block, from) => Ok(Base::Common(block.copy(alloc)?, *from)),
    }
}

fn copy_bounds(alloc: Global, bounds: &Bounds) -> Result<Bounds, AllocError>
    ensures { IfOk result (λ again. again ≡ bounds.now) }
{
    match bounds {
        Bounds::Known(extents) => {
            Ok(Bounds::Known(List::from_slice(alloc, extents.as_slice())?))
        }
        Bounds::AtEntry(k) => Ok(Bounds::AtEntry(*k)),
    }
}

/// The same array again.
pub fn copy_array(alloc: Global, array: &Array) -> Result<Array, AllocError>
    ensures { IfOk result (λ again. again ≡ array.now) }
{
    let base = copy_base(alloc, &array.base)?;
    let bounds = copy_bounds(alloc, &array.bounds)?;
    Ok(Array {
        base,
        length: array.length,
        bounds,
    })
}

/// Where a slot stands.
pub fn base_of(alloc: Global, slot: &Slot) -> Result<Base, AllocError>
    ensures { IfOk result (λ base. base ≡ t.base_of slot.now) }
{
    match &slot.area {
        Area::Dummy(k) => Ok(Base::Dummy(*k)),
        Area::Local => Ok(Base::Own(slot.from)),
        Area::Common(block) => Ok(Base::Common(block.copy(alloc)?, slot.from)),
    }
}

fn whole(value: Option<Value>) -> Option<i64>
    ensures { result ≡ s.whole value }
{
    match value {
        Some(Value::Integer(n)) => Some(n),
        _ => None,
    }
}

fn lower(constants: &Table<Value>, bound: &Option<Expr>) -> Option<i64>
    ensures { result ≡ s.lower constants.now bound.now }
{
    match bound {
        Some(e) => whole(evaluate(constants, e)),
        None => Some(1),
    }
}

fn upper(constants: &Table<Value>, bound: &Option<Expr>) -> Option<i64>
    ensures { result ≡ s.upper constants.now bound.now }
{
    match bound {
        Some(e) => whole(evaluate(constants, e)),
        None => None,
    }
}

// No memory has room for an array of 2 ** 64 elements.
fn span(low: i64, high: i64) -> Result<u64, AllocError>
    ensures { IfOk result (λ size. size ≡ s.span low high) }
{
    if low <= high {
        high.abs_diff(low).checked_add(1).ok_or(AllocError)
    } else {
        Ok(0)
    }
}

fn between(low: Option<i64>, high: Option<i64>) -> Result<u64, AllocError>
    ensures { IfOk result (λ size. size ≡ unwrap_or (s.between low high) 0) }
{
    match (low, high) {
        (Some(low), Some(high)) => span(low, high),
        _ => Ok(0),
    }
}

fn one_or(bound: Option<i64>) -> i64
    ensures { result ≡ unwrap_or bound (pos 1) }
{
    match bound {
        Some(n) => n,
        None => 1,
    }
}

fn extent_of(
    constants: &Table<Value>,
    bound: &(Option<Expr>, Option<Expr>),
) -> Result<Extent, AllocError>
    ensures { IfOk result (λ extent. extent ≡ t.extent_of constants.now bound.now) }
{
    let low = lower(constants, &bound.0);
    let size = between(low, upper(constants, &bound.1))?;
    Ok(Extent {
        lower: one_or(low),
        size,
    })
}

#[tactic(auto, using(crate::proofs::Lists::joined))]
fn extents_of(
    alloc: Global,
    constants: &Table<Value>,
    bounds: &List<(Option<Expr>, Option<Expr>)>,
) -> Result<List<Extent>, AllocError>
    ensures { IfOk result (λ all. all ≡ map (t.extent_of constants.now) bounds.now) }
{
    let mut all = List::new(alloc);
    for bound in bounds.as_slice() {
        all.push(extent_of(constants, bound)?)?;
    }
    Ok(all)
}

fn bounds_of(
    alloc: Global,
    constants: &Table<Value>,
    bounds: &List<(Option<Expr>, Option<Expr>)>,
    area: &Area,
) -> Result<Bounds, AllocError>
    ensures { IfOk result (λ all. all ≡ t.bounds_at constants.now bounds.now area.now) }
{
    match area {
        Area::Dummy(k) => Ok(Bounds::AtEntry(*k)),
        _ => Ok(Bounds::Known(extents_of(alloc, constants, bounds)?)),
    }
}

/// The array of a slot. It fails where a dimension has more elements than any memory has room for, as where memory runs out.
pub fn array_of(
    alloc: Global,
    constants: &Table<Value>,
    bounds: &List<(Option<Expr>, Option<Expr>)>,
    slot: &Slot,
) -> Result<Array, AllocError>
    ensures { IfOk result (λ array. array ≡ t.array_of constants.now bounds.now slot.now) }
{
    let base = base_of(alloc, slot)?;
    let known = bounds_of(alloc, constants, bounds, &slot.area)?;
    Ok(Array {
        base,
        length: slot.size,
        bounds: known,
    })
}

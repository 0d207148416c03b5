//! Activations of units.
ghost use Rattle.std.specs.Prelude.{◌≡◌, ℕ, IfOk, map, slice_index_or};
ghost use Rattle.f77_semantics.specs.Expressions as e;
ghost use Rattle.interp_cells.specs.Spots.{loc_of};
ghost use Rattle.interp_steps.specs.Frames.{interval_of, frame_of};

use f77_semantics::{Array, Base, Extent};
use f77_tree::{List, Name};
use interp_cells::{Area, Spot};
use std::alloc::AllocError;

/// Consecutive storage units of an area.
#[derive(Clone, Copy, Drop)]
pub struct Interval<'a> {
    pub area: Area<'a>,
    pub from: usize,
    pub length: usize,
}

/// An activation of a unit: its actual arguments, and the shapes of its dummy arrays that are known.
#[derive(Drop)]
pub struct Frame<'a> {
    pub unit: &'a Name,
    pub actuals: Vec<Interval<'a>>,
    pub shapes: Vec<Option<List<Extent>>>,
}

/// Where a name stands that has so many storage units.
pub fn placed<'a>(frame: &Frame<'a>, base: &'a Base, length: usize) -> Interval<'a>
    ensures { interval_of result ≡ e.interval (frame_of frame.now) base.now length }
{
    match base {
        Base::Dummy(k) => match frame.actuals.get(*k as usize) {
            Some(actual) => *actual,
            None => Interval {
                area: Area::Fresh(frame.unit, 0, 0),
                from: 0,
                length: 1,
            },
        },
        Base::Own(from) => Interval {
            area: Area::Local(frame.unit),
            from: *from as usize,
            length,
        },
        Base::Common(block, from) => Interval {
            area: Area::Block(block),
            from: *from as usize,
            length,
        },
    }
}

/// Where an array stands.
pub fn sequence<'a>(frame: &Frame<'a>, array: &'a Array) -> Interval<'a>
    ensures { interval_of result ≡ e.sequence (frame_of frame.now) array.now }
{
    placed(frame, &array.base, array.length as usize)
}

/// The location so far behind the beginning.
pub fn spot_at<'a>(i: Interval<'a>, k: usize) -> Result<Spot<'a>, AllocError>
    ensures { IfOk result (λ s. loc_of s ≡ e.at (interval_of i.entry) k) }
{
    let offset = i.from.checked_add(k).ok_or(AllocError)?;
    Ok(Spot {
        area: i.area,
        offset,
    })
}

/// What is left behind so many storage units.
pub fn rest<'a>(i: Interval<'a>, k: usize) -> Result<Interval<'a>, AllocError>
    ensures { IfOk result (λ r. interval_of r ≡ e.rest (interval_of i.entry) k) }
{
    let from = i.from.checked_add(k).ok_or(AllocError)?;
    Ok(Interval {
        area: i.area,
        from,
        length: i.length.saturating_sub(k),
    })
}

/// The location of a scalar.
pub fn scalar<'a>(frame: &Frame<'a>, base: &'a Base) -> Result<Spot<'a>, AllocError>
    ensures { IfOk result (λ s. loc_of s ≡ e.scalar (frame_of frame.now) base.now) }
{
    spot_at(placed(frame, base, 1), 0)
}

/// The cell of an actual argument without a location.
pub fn fresh<'a>(frame: &Frame<'a>, site: usize, position: usize) -> Interval<'a>
    ensures { interval_of result ≡ e.fresh (frame_of frame.now) site position }
{
    Interval {
        area: Area::Fresh(frame.unit, site, position),
        from: 0,
        length: 1,
    }
}

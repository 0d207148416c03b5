//! The locations of spots.
ghost use Rattle.std.specs.Prelude.{◌≡◌, IfOk};
ghost use Rattle.interp_cells.specs.Spots.{loc_of};
ghost use Rattle.interp_steps.specs.Frames.{interval_of};
ghost use Rattle.interp_steps.specs.Stops.{Gives};
ghost use Rattle.ir_core.specs.Runs as r;
ghost use Rattle.ir_run.specs.Images.{activation_of, temporaries_of};

use super::values::{Content, word};
use f77_tree::Name;
use interp_cells::{Area, Spot as Cell};
use interp_steps::{Interval, Stop};
use ir_core::{Base, Seat, Spot};
use std::alloc::AllocError;

/// An activation: the unit, and what its dummies are associated with.
#[derive(Clone, Copy, Drop)]
pub struct Activation<'a> {
    pub unit: &'a Name,
    pub actuals: &'a [Interval<'a>],
}

// The storage units of a spot, whatever its index.
fn interval<'a>(
    activation: &Activation<'a>,
    base: &'a Base,
    length: u32,
) -> Result<Interval<'a>, Stop>
    ensures { Gives result (λ i. interval_of i) (r.or_stuck (r.interval (activation_of activation.now) base.now length)) }
{
    match base {
        Base::Dummy(k) => match activation.actuals.get(*k as usize) {
            Some(actual) => Ok(*actual),
            None => Err(Stop::Stuck),
        },
        Base::Local(from) => Ok(Interval {
            area: Area::Local(activation.unit),
            from: *from as usize,
            length: length as usize,
        }),
        Base::Common(block, from) => Ok(Interval {
            area: Area::Block(block),
            from: *from as usize,
            length: length as usize,
        }),
    }
}

fn natural(x: i64) -> Result<usize, Stop>
    ensures { Gives result (λ k. k) (r.natural x) }
{
    if x < 0 {
        Err(Stop::Stuck)
    } else {
        Ok(x as usize)
    }
}

fn inside(i: &Interval, k: usize) -> Result<usize, Stop>
    ensures { Gives result (λ k. k) (r.inside (interval_of i.now) k) }
{
    if k < i.length {
        Ok(k)
    } else {
        Err(Stop::Stuck)
    }
}

fn counted(temporaries: &[Option<Content>], i: &Interval, t: u32) -> Result<usize, Stop>
    ensures { Gives result (λ k. k) (r.counted (temporaries_of temporaries.now) (interval_of i.now) t) }
{
    let x = word(temporaries, t)?;
    let k = natural(x)?;
    inside(i, k)
}

// Without an index a spot is its first storage unit.
fn offset(temporaries: &[Option<Content>], i: &Interval, index: Option<u32>) -> Result<usize, Stop>
    ensures { Gives result (λ k. k) (r.index (temporaries_of temporaries.now) (interval_of i.now) index) }
{
    match index {
        None => inside(i, 0),
        Some(t) => counted(temporaries, i, t),
    }
}

// The location so far behind the beginning.
fn cell_at<'a>(i: Interval<'a>, k: usize) -> Result<Cell<'a>, AllocError>
    ensures { IfOk result (λ s. loc_of s ≡ r.at (interval_of i.entry) k) }
{
    let offset = i.from.checked_add(k).ok_or(AllocError)?;
    Ok(Cell {
        area: i.area,
        offset,
    })
}

// What is left behind so many storage units.
fn rest<'a>(i: Interval<'a>, k: usize) -> Result<Interval<'a>, AllocError>
    ensures { IfOk result (λ left. interval_of left ≡ r.rest (interval_of i.entry) k) }
{
    let from = i.from.checked_add(k).ok_or(AllocError)?;
    Ok(Interval {
        area: i.area,
        from,
        length: i.length.saturating_sub(k),
    })
}

/// The location that is loaded or stored.
pub fn location<'a>(
    activation: &Activation<'a>,
    temporaries: &[Option<Content<'a>>],
    spot: &'a Spot,
) -> Result<Cell<'a>, Stop>
    ensures { Gives result (λ s. loc_of s) (r.location (activation_of activation.now) (temporaries_of temporaries.now) spot.now) }
{
    let i = interval(activation, &spot.base, spot.length)?;
    let k = offset(temporaries, &i, spot.index)?;
    let cell = cell_at(i, k)?;
    Ok(cell)
}

fn rest_by<'a>(
    temporaries: &[Option<Content<'a>>],
    i: Interval<'a>,
    index: Option<u32>,
) -> Result<Interval<'a>, Stop>
    ensures { Gives result (λ i. interval_of i) (r.rest_by (temporaries_of temporaries.now) (interval_of i.entry) index) }
{
    match index {
        None => Ok(i),
        Some(t) => {
            let k = counted(temporaries, &i, t)?;
            let left = rest(i, k)?;
            Ok(left)
        }
    }
}

/// The address of a spot.
pub fn pointed<'a>(
    activation: &Activation<'a>,
    temporaries: &[Option<Content<'a>>],
    spot: &'a Spot,
) -> Result<Interval<'a>, Stop>
    ensures { Gives result (λ i. interval_of i) (r.pointed (activation_of activation.now) (temporaries_of temporaries.now) spot.now) }
{
    let i = interval(activation, &spot.base, spot.length)?;
    rest_by(temporaries, i, spot.index)
}

/// The cell of an actual argument without a location.
pub fn fresh<'a>(activation: &Activation<'a>, seat: Seat) -> Interval<'a>
    ensures { interval_of result ≡ r.fresh (activation_of activation.now) seat }
{
    Interval {
        area: Area::Fresh(activation.unit, seat.site as usize, seat.position as usize),
        from: 0,
        length: 1,
    }
}

/// The location of that cell.
pub fn fresh_cell<'a>(activation: &Activation<'a>, seat: Seat) -> Cell<'a>
    ensures { loc_of result ≡ r.at (r.fresh (activation_of activation.now) seat) 0 }
{
    Cell {
        area: Area::Fresh(activation.unit, seat.site as usize, seat.position as usize),
        offset: 0,
    }
}

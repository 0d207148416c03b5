//! The world in which a program starts.
ghost use Rattle.std.specs.Prelude.{◌≡◌, ◌+◌, [], ◌∷◌, None, flat_map, IfOk, OnOk};
ghost use Rattle.f77_semantics.specs.Data.{beyond};
ghost use Rattle.f77_semantics.specs.Expressions.{scalar};
ghost use Rattle.interp_cells.specs.Cells.{cells_of};
ghost use Rattle.interp_cells.specs.Spots.{loc_of};
ghost use Rattle.interp_data.specs.Spans.{units_of};
ghost use Rattle.f77_meaning.specs.Given as g;

use f77_semantics::Base;
use f77_tree::{List, Name};
use interp_calls::Procedure;
use interp_cells::{Area, Spot, Storage};
use interp_data::Span;
use std::alloc::{AllocError, Global};

fn offset(from: u32, far: u64) -> Result<usize, AllocError>
    ensures { IfOk result (λ n. n ≡ from + far) }
{
    (from as usize).checked_add(far as usize).ok_or(AllocError)
}

// The storage unit so many behind the beginning of a name, in a unit that isn't called.
fn spot_behind<'a>(name: &'a Name, base: &'a Base, far: u64) -> Result<Spot<'a>, AllocError>
    ensures { IfOk result (λ s. loc_of s ≡ scalar (g.idle name.now) (beyond base.now far)) }
{
    match base {
        Base::Dummy(_) => Ok(Spot {
            area: Area::Fresh(name, 0, 0),
            offset: 0,
        }),
        Base::Own(from) => Ok(Spot {
            area: Area::Local(name),
            offset: offset(*from, far)?,
        }),
        Base::Common(block, from) => Ok(Spot {
            area: Area::Block(block),
            offset: offset(*from, far)?,
        }),
    }
}

fn behind(skip: u64, far: u64) -> Result<u64, AllocError>
    ensures { IfOk result (λ n. n ≡ skip + far) }
{
    skip.checked_add(far).ok_or(AllocError)
}

// Gives one storage unit of a span its value.
fn give_unit(
    alloc: Global,
    cells: &mut Storage,
    name: &Name,
    span: &Span,
    k: u64,
) -> Result<(), AllocError>
    ensures { OnOk result (cells_of cells.new ≡ g.given_over name.now ((beyond span.now.base (span.now.skip + k), span.now.value) ∷ []) (cells_of cells.old)) }
{
    let spot = spot_behind(name, &span.base, behind(span.skip, k)?)?;
    cells.put(alloc, spot, span.value)
}

// What is given first wins, so the last goes first.
fn give_span(alloc: Global, cells: &mut Storage, name: &Name, span: &Span) -> Result<(), AllocError>
    ensures { OnOk result (cells_of cells.new ≡ g.given_over name.now (units_of span.now) (cells_of cells.old)) }
{
    for k in (0..span.count).rev() {
        give_unit(alloc, cells, name, span, k)?;
    }
    Ok(())
}

fn give_spans(
    alloc: Global,
    cells: &mut Storage,
    name: &Name,
    spans: &List<Span>,
) -> Result<(), AllocError>
    ensures { OnOk result (cells_of cells.new ≡ g.given_over name.now (flat_map units_of spans.now) (cells_of cells.old)) }
{
    let all = spans.as_slice();
    for k in (0..all.len()).rev() {
        give_span(alloc, cells, name, &all[k])?;
    }
    Ok(())
}

/// The cells at the start: what DATA gives, also in units that are never called.
pub fn given(alloc: Global, procedures: &[Procedure]) -> Result<Storage, AllocError>
    ensures { IfOk result (λ cells. cells_of cells ≡ g.given_by procedures.now (λ l. None)) }
{
    let mut cells = Storage::new(alloc);
    for k in (0..procedures.len()).rev() {
        let routine = &procedures[k].routine;
        give_spans(alloc, &mut cells, &routine.name, &routine.cells.initial)?;
    }
    Ok(cells)
}

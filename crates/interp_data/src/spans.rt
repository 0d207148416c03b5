//! Spans of storage units with one value.
ghost use Rattle.std.specs.Prelude.{◌≡◌, ◌+◌, ◌++◌, flat_map, IfOk, OnOk};
ghost use Rattle.std.specs.List.{zip};
ghost use Rattle.interp_data.specs.Spans as r;

use super::standing::copy_base;
use f77_semantics::Base;
use f77_tree::{List, Value};
use std::alloc::{AllocError, Global};

/// Storage units one behind another: `count` of them, of which the first is `skip` behind the base.
#[derive(Drop)]
pub struct Places {
    pub base: Base,
    pub skip: u64,
    pub count: u64,
}

/// A value several times.
#[derive(Clone, Copy, Debug, Drop, PartialEq, Eq)]
pub struct Repeated {
    pub value: Value,
    pub count: u64,
}

/// Storage units one behind another with one value: `count` of them, of which the first is `skip` behind the base.
#[derive(Drop)]
pub struct Span {
    pub base: Base,
    pub skip: u64,
    pub count: u64,
    pub value: Value,
}

#[tactic(auto, using(crate::proofs::Zipping::zipping))]
fn push_span(
    alloc: Global,
    spans: &mut List<Span>,
    base: &Base,
    skip: u64,
    given: Repeated,
) -> Result<(), AllocError>
    ensures { OnOk result (flat_map r.units_of spans.new ≡ flat_map r.units_of spans.old ++ r.given_from base.now skip given.count given.value) }
{
    let base = copy_base(alloc, base)?;
    spans.push(Span {
        base,
        skip,
        count: given.count,
        value: given.value,
    })
}

// The units of a place and of the places behind it, and the values of a repeated one and of those behind it, go together one by one.
#[tactic(auto, using(crate::proofs::Zipping::pairing))]
fn push_spans(
    alloc: Global,
    spans: &mut List<Span>,
    base: &Base,
    units: (u64, u64),
    places: &[Places],
    given: Repeated,
    values: &[Repeated],
) -> Result<(), AllocError>
    ensures { OnOk result (flat_map r.units_of spans.new ≡ flat_map r.units_of spans.old ++ zip (r.places_from base.now units.0 units.1 ++ flat_map r.places_of places.now) (r.values_of given ++ flat_map r.values_of values.now)) }
{
    let (skip, count) = units;
    if count <= given.count {
        let here = Repeated {
            value: given.value,
            count,
        };
        push_span(alloc, spans, base, skip, here)?;
        let left = Repeated {
            value: given.value,
            count: given.count - count,
        };
        match places.split_first() {
            Some((next, others)) => push_spans(
                alloc,
                spans,
                &next.base,
                (next.skip, next.count),
                others,
                left,
                values,
            ),
            None => Ok(()),
        }
    } else {
        push_span(alloc, spans, base, skip, given)?;
        let left = (following_unit(skip, given.count)?, count - given.count);
        match values.split_first() {
            Some((next, others)) => push_spans(alloc, spans, base, left, places, *next, others),
            None => Ok(()),
        }
    }
}

fn following_unit(skip: u64, count: u64) -> Result<u64, AllocError>
    ensures { IfOk result (λ next. next ≡ skip + count) }
{
    skip.checked_add(count).ok_or(AllocError)
}

/// Puts places and values together one by one, as far as both go.
#[tactic(auto, using(crate::proofs::Zipping::pairing))]
pub fn zip_spans(
    alloc: Global,
    spans: &mut List<Span>,
    places: &List<Places>,
    values: &List<Repeated>,
) -> Result<(), AllocError>
    ensures { OnOk result (flat_map r.units_of spans.new ≡ flat_map r.units_of spans.old ++ zip (flat_map r.places_of places.now) (flat_map r.values_of values.now)) }
{
    match (
        places.as_slice().split_first(),
        values.as_slice().split_first(),
    ) {
        (Some((place, places)), Some((value, values))) => push_spans(
            alloc,
            spans,
            &place.base,
            (place.skip, place.count),
            places,
            *value,
            values,
        ),
        _ => Ok(()),
    }
}

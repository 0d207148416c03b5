//! What DATA gives.
ghost use Rattle.std.specs.Prelude.{◌≡◌, ◌-ℤ◌, ◌++◌, flat_map, map, IfOk, OnOk};
ghost use Rattle.f77_tree.specs.declared.expr.Expr.{out-Expr};
ghost use Rattle.f77_tree.specs.declared.form.Form.{out-Form};
ghost use Rattle.f77_semantics.specs.Expressions as e;
ghost use Rattle.f77_semantics.specs.Statements.{not_below_zero};
ghost use Rattle.f77_semantics.specs.Data as given;
ghost use Rattle.f77_semantics.specs.Terms.{constant_in};
ghost use Rattle.interp_data.specs.Meanings as m;
ghost use Rattle.interp_data.specs.Meant.{meant};
ghost use Rattle.interp_data.specs.Spans as r;

use super::lookup::Lookup;
use super::meaning::Meaning;
use super::meant::meaning_of;
use super::spans::{Places, Repeated, Span, zip_spans};
use super::standing::copy_base;
use f77_semantics::{Array, Bounds, Extent};
use f77_tree::{DataConst, Expr, Form, List, Stmt, Value};
use f77_values::{Table, evaluate};
use std::alloc::{AllocError, Global};

// The value of a constant expression.
#[tactic(auto, unfolding(f77_semantics::specs::Terms::constant_in))]
fn constant(constants: &Table<Value>, e: &Expr) -> Option<Value>
    ensures { result ≡ constant_in constants.now e.now }
{
    evaluate(constants, e)
}

// A constant that is a number.
fn number_of(constants: &Table<Value>, e: &Expr) -> i64
    ensures { result ≡ given.number_of constants.now e.now }
{
    match constant(constants, e) {
        Some(Value::Integer(n)) => n,
        _ => 0,
    }
}

#[tactic(auto, using(crate::proofs::Lists::joined))]
fn subscripts_of(
    alloc: Global,
    constants: &Table<Value>,
    list: &List<Expr>,
) -> Result<List<i64>, AllocError>
    ensures { IfOk result (λ all. all ≡ map (given.number_of constants.now) list.now) }
{
    let mut all = List::new(alloc);
    for e in list.as_slice() {
        all.push(number_of(constants, e))?;
    }
    Ok(all)
}

fn distance(subscript: i64, extent: &Extent) -> Option<u64>
    ensures { result ≡ e.distance (subscript -ℤ extent.now.lower) extent.now.size }
{
    if subscript < extent.lower {
        return None;
    }
    let far = subscript.abs_diff(extent.lower);
    if far < extent.size { Some(far) } else { None }
}

fn with_others(size: u64, far: Option<u64>, others: Option<u64>) -> Result<Option<u64>, AllocError>
    ensures { IfOk result (λ k. k ≡ e.with_others size far others) }
{
    match (far, others) {
        (Some(far), Some(others)) => {
            let rows = size.checked_mul(others).ok_or(AllocError)?;
            Ok(Some(far.checked_add(rows).ok_or(AllocError)?))
        }
        _ => Ok(None),
    }
}

// The number of an element in its array's sequence. What can't be counted can't be stored.
fn numbered(extents: &[Extent], subscripts: &[i64]) -> Result<Option<u64>, AllocError>
    ensures { IfOk result (λ k. k ≡ e.numbered extents.now subscripts.now) }
{
    match (extents.split_first(), subscripts.split_first()) {
        (None, None) => Ok(Some(0)),
        (Some((extent, extents)), Some((subscript, subscripts))) => {
            let others = numbered(extents, subscripts)?;
            with_others(extent.size, distance(*subscript, extent), others)
        }
        _ => Ok(None),
    }
}

// All units of a name without a list.
#[tactic(auto, using(crate::proofs::Giving::giving))]
fn push_bare(alloc: Global, found: &mut List<Places>, meaning: &Meaning) -> Result<(), AllocError>
    ensures { OnOk result (flat_map r.places_of found.new ≡ flat_map r.places_of found.old ++ given.bare_units (m.meant_of meaning.now)) }
{
    match meaning {
        Meaning::Variable(_, base) => {
            let base = copy_base(alloc, base)?;
            found.push(Places {
                base,
                skip: 0,
                count: 1,
            })
        }
        Meaning::Array(_, array) => {
            let base = copy_base(alloc, &array.base)?;
            found.push(Places {
                base,
                skip: 0,
                count: array.length as u64,
            })
        }
        Meaning::Constant(_) | Meaning::Function | Meaning::Intrinsic(_) | Meaning::Unknown => {
            Ok(())
        }
    }
}

// The number of an element by its constant subscripts.
fn element_number(bounds: &Bounds, subscripts: &[i64]) -> Result<Option<u64>, AllocError>
    ensures { IfOk result (λ k. k ≡ r.element_number bounds.now subscripts.now) }
{
    match bounds {
        Bounds::Known(extents) => numbered(extents.as_slice(), subscripts),
        Bounds::AtEntry(_) => Ok(None),
    }
}

#[tactic(auto, using(crate::proofs::Giving::giving))]
fn push_element(
    alloc: Global,
    found: &mut List<Places>,
    array: &Array,
    subscripts: &[i64],
) -> Result<(), AllocError>
    ensures { OnOk result (flat_map r.places_of found.new ≡ flat_map r.places_of found.old ++ given.element_in array.now.base array.now.bounds subscripts.now) }
{
    match element_number(&array.bounds, subscripts)? {
        Some(k) => {
            let base = copy_base(alloc, &array.base)?;
            found.push(Places {
                base,
                skip: k,
                count: 1,
            })
        }
        None => Ok(()),
    }
}

#[tactic(auto, using(crate::proofs::Giving::giving))]
fn push_listed(
    alloc: Global,
    found: &mut List<Places>,
    meaning: &Meaning,
    subscripts: &[i64],
) -> Result<(), AllocError>
    ensures { OnOk result (flat_map r.places_of found.new ≡ flat_map r.places_of found.old ++ given.element_units (m.meant_of meaning.now) subscripts.now) }
{
    match meaning {
        Meaning::Array(_, array) => push_element(alloc, found, array, subscripts),
        Meaning::Constant(_)
        | Meaning::Variable(_, _)
        | Meaning::Function
        | Meaning::Intrinsic(_)
        | Meaning::Unknown => Ok(()),
    }
}

#[tactic(auto, using(crate::proofs::Giving::giving))]
fn push_places(
    alloc: Global,
    found: &mut List<Places>,
    names: &Lookup,
    item: &Expr,
) -> Result<(), AllocError>
    ensures { OnOk result (flat_map r.places_of found.new ≡ flat_map r.places_of found.old ++ given.item_units names.now.facts.constants (meant names.now) (out-Expr item.now)) }
{
    match item {
        Expr::Scalar(name) => {
            let meaning = meaning_of(alloc, names, name)?;
            push_bare(alloc, found, &meaning)
        }
        Expr::Apply(name, list) => {
            let meaning = meaning_of(alloc, names, name)?;
            let subscripts = subscripts_of(alloc, &names.facts.constants, list)?;
            push_listed(alloc, found, &meaning, subscripts.as_slice())
        }
        _ => Ok(()),
    }
}

#[tactic(auto, using(crate::proofs::Giving::giving))]
fn places_of(alloc: Global, names: &Lookup, items: &List<Expr>) -> Result<List<Places>, AllocError>
    ensures { IfOk result (λ all. flat_map r.places_of all ≡ r.items_units names.now.facts.constants (meant names.now) items.now) }
{
    let mut all = List::new(alloc);
    for item in items.as_slice() {
        push_places(alloc, &mut all, names, item)?;
    }
    Ok(all)
}

fn times(names: &Lookup, repeat: &Option<Expr>) -> u64
    ensures { result ≡ given.times names.now.facts.constants (meant names.now) repeat.now }
{
    match repeat {
        Some(e) => at_least_zero(number_of(&names.facts.constants, e)),
        None => 1,
    }
}

fn at_least_zero(n: i64) -> u64
    ensures { result ≡ not_below_zero n }
{
    if n < 0 { 0 } else { n as u64 }
}

// A constant without a value gives nothing.
#[tactic(auto, using(crate::proofs::Giving::giving))]
fn push_constant(
    found: &mut List<Repeated>,
    names: &Lookup,
    c: &DataConst,
) -> Result<(), AllocError>
    ensures { OnOk result (flat_map r.values_of found.new ≡ flat_map r.values_of found.old ++ given.constants_of names.now.facts.constants (meant names.now) c.now) }
{
    match constant(&names.facts.constants, &c.value) {
        Some(value) => found.push(Repeated {
            value,
            count: times(names, &c.repeat),
        }),
        None => Ok(()),
    }
}

#[tactic(auto, using(crate::proofs::Giving::giving))]
fn constants_of(
    alloc: Global,
    names: &Lookup,
    list: &List<DataConst>,
) -> Result<List<Repeated>, AllocError>
    ensures { IfOk result (λ all. flat_map r.values_of all ≡ flat_map (given.constants_of names.now.facts.constants (meant names.now)) list.now) }
{
    let mut all = List::new(alloc);
    for c in list.as_slice() {
        push_constant(&mut all, names, c)?;
    }
    Ok(all)
}

fn push_given(
    alloc: Global,
    found: &mut List<Span>,
    names: &Lookup,
    run: &(List<Expr>, List<DataConst>),
) -> Result<(), AllocError>
    ensures { OnOk result (flat_map r.units_of found.new ≡ flat_map r.units_of found.old ++ given.given_by names.now.facts.constants (meant names.now) run.now) }
{
    let places = places_of(alloc, names, &run.0)?;
    let values = constants_of(alloc, names, &run.1)?;
    zip_spans(alloc, found, &places, &values)
}

#[tactic(auto, using(crate::proofs::Giving::giving))]
fn push_lists(
    alloc: Global,
    found: &mut List<Span>,
    names: &Lookup,
    lists: &List<(List<Expr>, List<DataConst>)>,
) -> Result<(), AllocError>
    ensures { OnOk result (flat_map r.units_of found.new ≡ flat_map r.units_of found.old ++ flat_map (given.given_by names.now.facts.constants (meant names.now)) lists.now) }
{
    for run in lists.as_slice() {
        push_given(alloc, found, names, run)?;
    }
    Ok(())
}

#[tactic(auto, using(crate::proofs::Giving::giving))]
fn push_statement(
    alloc: Global,
    found: &mut List<Span>,
    names: &Lookup,
    statement: &Stmt,
) -> Result<(), AllocError>
    ensures { OnOk result (flat_map r.units_of found.new ≡ flat_map r.units_of found.old ++ given.form_gives names.now.facts.constants (meant names.now) (out-Form statement.now.form)) }
{
    match &statement.form {
        Form::DataRuns(lists) => push_lists(alloc, found, names, lists),
        _ => Ok(()),
    }
}

/// What DATA gives, in spans.
#[tactic(auto, using(crate::proofs::Giving::giving))]
pub fn initial(
    alloc: Global,
    names: &Lookup,
    statements: &List<Stmt>,
) -> Result<List<Span>, AllocError>
    ensures { IfOk result (λ all. flat_map r.units_of all ≡ given.initial names.now.facts.constants (meant names.now) statements.now) }
{
    let mut all = List::new(alloc);
    for statement in statements.as_slice() {
        push_statement(alloc, &mut all, names, statement)?;
    }
    Ok(all)
}

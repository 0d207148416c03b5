//! Where the units of a program stand in their list.
ghost use Rattle.std.specs.Prelude.{◌≡◌, ℕ, ◌<◌, List as Lists, None, Some, MatchOption, IfOk, OnOk, if◌then◌else◌, length, map, slice_get};
ghost use Rattle.indexmap.specs.IndexMap.{get};
ghost use Rattle.f77_semantics.specs.Source as source;
ghost use Rattle.f77_values.specs.Tables.{Name as Word, name_eq};
ghost use Rattle.f77_tree.specs.declared.unit.Unit as spec;
ghost use Rattle.f77_meaning.specs.Places as p;

use f77_tree::{List, Name, Unit, UnitKind};
use indexmap::IndexMap;
use std::alloc::{AllocError, Global};

fn is_main(kind: UnitKind) -> bool
    ensures { result ≡ source.is_main kind }
{
    match kind {
        UnitKind::Main => true,
        _ => false,
    }
}

/// The place of the main program.
pub fn main_place(units: &[Unit]) -> Option<usize>
    ensures main { MatchOption result (source.main_of units.now ≡ None) (λ k. source.main_of units.now ≡ slice_get units.now k) }
    ensures within { MatchOption result (source.main_of units.now ≡ None) (λ k. k < length units.now) }
{
    for k in 0..units.len() {
        if is_main(units[k].kind) {
            return Some(k);
        }
    }
    None
}

fn add(
    alloc: Global,
    places: &mut IndexMap<Name, usize>,
    name: &Name,
    at: usize,
) -> Result<(), AllocError>
    ensures { OnOk result ((q : Word) → get name_eq places.new q ≡ p.or_else (get name_eq places.old q) (if name_eq name.now q then Some at else None)) }
{
    if places.get(name).is_none() {
        places.insert(name.copy(alloc)?, at)?;
    }
    Ok(())
}

/// The places of the units by their names. Of units with one name it is the first.
pub fn places_of(alloc: Global, units: &[Unit]) -> Result<IndexMap<Name, usize>, AllocError>
    ensures { IfOk result (λ places. (q : Word) → get name_eq places q ≡ p.place_from 0 units.now q) }
{
    let mut places = IndexMap::new(alloc);
    for at in 0..units.len() {
        add(alloc, &mut places, &units[at].name, at)?;
    }
    Ok(places)
}

/// The place of the first unit of a name, or else that of the main program.
pub fn find(places: &IndexMap<Name, usize>, main: usize, name: &Name) -> usize
    ensures { (units : Lists spec.Unit) → ((q : Word) → get name_eq places.now q ≡ p.place_from 0 units q) → result ≡ p.find_of units main name.now }
{
    match places.get(name) {
        Some(at) => *at,
        None => main,
    }
}

/// The places of names, one by one.
pub fn find_all(
    alloc: Global,
    places: &IndexMap<Name, usize>,
    main: usize,
    names: &List<Name>,
) -> Result<Vec<usize>, AllocError>
    ensures { IfOk result (λ all. (units : Lists spec.Unit) → ((q : Word) → get name_eq places.now q ≡ p.place_from 0 units q) → all.items ≡ map (p.find_of units main) names.now) }
{
    let mut all = Vec::new(alloc);
    for name in names.as_slice() {
        all.push(find(places, main, name))?;
    }
    Ok(all)
}

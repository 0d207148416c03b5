//! The units of a text as a draft.
ghost use Rattle.std.specs.Prelude.{◌≡◌, map, reverse, IfOk, OnOk};
ghost use Rattle.std.specs.List.{All};
ghost use Rattle.f77_parse.specs.Statements.{EndsUnit};
ghost use Rattle.f77_values.specs.Tables as n;
ghost use Rattle.rn_draft.specs.Drafts as d;

use f77_tree::{List, Name};
use fixed_form::UnitText;
use indexmap::IndexMap;
use std::alloc::{AllocError, Global};

/// The units from the last to the first.
fn reversed(alloc: Global, units: List<UnitText>) -> Result<List<UnitText>, AllocError>
    ensures { IfOk result (λ back. reverse back ≡ units) }
{
    let mut units = units;
    let mut back = List::new(alloc);
    while let Some(unit) = units.pop() {
        back.push(unit)?;
    }
    Ok(back)
}

fn put(
    alloc: Global,
    draft: &mut IndexMap<Name, UnitText>,
    unit: UnitText,
) -> Result<(), AllocError>
    ensures { OnOk result (draft.new.entries ≡ n.with_told draft.old.entries unit.name unit) }
{
    let name = unit.name.copy(alloc)?;
    draft.insert(name, unit)?;
    Ok(())
}

/// The units of a list from its last to its first, put one after another.
fn put_all(alloc: Global, back: List<UnitText>) -> Result<IndexMap<Name, UnitText>, AllocError>
    ensures { IfOk result (λ draft. draft.entries ≡ n.told (map d.named (reverse back))) }
{
    let mut back = back;
    let mut draft = IndexMap::new(alloc);
    while let Some(unit) = back.pop() {
        put(alloc, &mut draft, unit)?;
    }
    Ok(draft)
}

fn units_of(alloc: Global, draft: IndexMap<Name, UnitText>) -> Result<List<UnitText>, AllocError>
    ensures { IfOk result (λ all. all ≡ map (λ entry. entry.1) draft.entries) }
{
    let mut all = Vec::new(alloc);
    for unit in draft.into_values() {
        all.push(unit)?;
    }
    Ok(List::from_vec(all))
}

/// The units of a text, each name once: a later unit takes the place of an earlier one of its name.
pub fn drafted(alloc: Global, units: List<UnitText>) -> Result<List<UnitText>, AllocError>
    ensures draft { IfOk result (λ draft. draft ≡ d.drafted units) }
    ensures ended { All EndsUnit units → IfOk result (λ draft. All EndsUnit draft) }
{
    let back = reversed(alloc, units)?;
    let draft = put_all(alloc, back)?;
    units_of(alloc, draft)
}

//! A unit for the interpreter.
ghost use Rattle.std.specs.Prelude.{◌≡◌, flat_map, map, IfOk};
ghost use Rattle.f77_names.specs.Roles as roles;
ghost use Rattle.f77_semantics.specs.Data as given;
ghost use Rattle.f77_semantics.specs.Source as source;
ghost use Rattle.interp_data.specs.Cells as c;
ghost use Rattle.interp_data.specs.Meanings as m;
ghost use Rattle.interp_data.specs.Meant.{meant};
ghost use Rattle.interp_data.specs.Spans as r;
ghost use Rattle.interp_lower.specs.Units as u;

use super::arrays::{DummyArray, dummy_arrays};
use super::lines::lines_of;
use super::piece::Line;
use f77_flow::Control;
use f77_names::{Facts, declarations_of, facts_of, occurrences_of};
use f77_semantics::{Base, Kept};
use f77_store::{Layout, Slot, layout};
use f77_tree::{List, Name, Ty, Unit, UnitKind};
use interp_data::{Lookup, Meaning, Span, copy_base, initial, kept_of, meaning_of};
use std::alloc::{AllocError, Global};

/// What SAVE and DATA keep of a unit's local cells, and what DATA gives, also to COMMON.
#[derive(Drop)]
pub struct Cells {
    pub kept: List<Kept>,
    pub initial: List<Span>,
}

/// A unit: its statements, the callee of each site, its dummy arrays, its cells, and the result variable of a function. Where control
/// goes, `f77_flow`'s `Control` says.
#[derive(Drop)]
pub struct Routine {
    pub name: Name,
    pub lines: List<Line>,
    pub callees: List<Name>,
    pub dummy_arrays: List<DummyArray>,
    pub result: Option<(Ty, Base)>,
    pub cells: Cells,
}

fn variable(alloc: Global, meaning: &Meaning) -> Result<Option<(Ty, Base)>, AllocError>
    ensures { IfOk result (λ variable. variable ≡ source.result_as (m.meant_of meaning.now)) }
{
    match meaning {
        Meaning::Variable(ty, base) => Ok(Some((*ty, copy_base(alloc, base)?))),
        Meaning::Constant(_)
        | Meaning::Array(_, _)
        | Meaning::Function
        | Meaning::Intrinsic(_)
        | Meaning::Unknown => Ok(None),
    }
}

fn own_variable(
    alloc: Global,
    names: &Lookup,
    name: &Name,
) -> Result<Option<(Ty, Base)>, AllocError>
    ensures { IfOk result (λ variable. variable ≡ source.result_as (meant names.now name.now)) }
{
    let meaning = meaning_of(alloc, names, name)?;
    variable(alloc, &meaning)
}

// The result variable of a function.
fn result_of(alloc: Global, names: &Lookup, unit: &Unit) -> Result<Option<(Ty, Base)>, AllocError>
    ensures { IfOk result (λ variable. variable ≡ source.result_of unit.now.kind (meant names.now unit.now.name)) }
{
    match unit.kind {
        UnitKind::Function => own_variable(alloc, names, &unit.name),
        _ => Ok(None),
    }
}

fn is_main(kind: UnitKind) -> bool
    ensures { result ≡ source.is_main kind }
{
    match kind {
        UnitKind::Main => true,
        _ => false,
    }
}

fn cells_of(alloc: Global, names: &Lookup, unit: &Unit) -> Result<Cells, AllocError>
    ensures kept { IfOk result (λ cells. cells.kept ≡ given.kept unit.now.statements names.now.slots) }
    ensures initial { IfOk result (λ cells. flat_map r.units_of cells.initial ≡ given.initial names.now.facts.constants (meant names.now) unit.now.statements) }
{
    let kept = kept_of(alloc, &unit.statements, &names.slots)?;
    let initial = initial(alloc, names, &unit.statements)?;
    Ok(Cells { kept, initial })
}

fn with_lines(
    alloc: Global,
    names: &Lookup,
    unit: &Unit,
    lines: List<Line>,
    callees: List<Name>,
) -> Result<Routine, AllocError>
    ensures { IfOk result (λ made. u.Parts made names.now unit.now lines callees) }
{
    let name = unit.name.copy(alloc)?;
    let arrays = dummy_arrays(alloc, names, &unit.dummies)?;
    let result = result_of(alloc, names, unit)?;
    let cells = cells_of(alloc, names, unit)?;
    Ok(Routine {
        name,
        lines,
        callees,
        dummy_arrays: arrays,
        result,
        cells,
    })
}

fn with_names(
    alloc: Global,
    names: &Lookup,
    unit: &Unit,
    control: &Control,
    callees: List<Name>,
) -> Result<Routine, AllocError>
    requires { control.now.statements.now ≡ unit.now.statements }
    ensures { IfOk result (λ made. u.Stands made names.now callees unit.now) }
{
    let lines = lines_of(alloc, names, control, is_main(unit.kind))?;
    with_lines(alloc, names, unit, lines, callees)
}

fn facts(alloc: Global, unit: &Unit) -> Result<Facts, AllocError>
    ensures { IfOk result (λ facts. facts ≡ roles.facts unit.now) }
{
    let all = occurrences_of(alloc, unit)?;
    let declarations = declarations_of(alloc, &unit.statements)?;
    facts_of(alloc, unit, &all, &declarations)
}

fn names_of(alloc: Global, unit: &Unit, slots: List<Slot>) -> Result<Lookup, AllocError>
    ensures facts { IfOk result (λ names. names.facts ≡ roles.facts unit.now) }
    ensures slots { IfOk result (λ names. names.slots ≡ slots) }
{
    let facts = facts(alloc, unit)?;
    Lookup::new(alloc, facts, slots)
}

/// All that an interpreter needs of a unit beside where control goes. It stands for what the unit means. It fails where memory runs out,
/// or where there are more sites or elements than any memory has room for.
pub fn routine_of(alloc: Global, unit: &Unit, control: &Control) -> Result<Routine, AllocError>
    requires { control.now.statements.now ≡ unit.now.statements }
    ensures { IfOk result (λ made. u.StandsFor made (source.routine unit.now)) }
{
    let Layout { slots, callees, .. } = layout(alloc, unit)?;
    let names = names_of(alloc, unit, slots)?;
    with_names(alloc, &names, unit, control, callees)
}

//! The layout of a unit.
ghost use Rattle.std.specs.Prelude.{◌≡◌, IfOk};
ghost use Rattle.f77_store.specs.Areas as b;
ghost use Rattle.f77_names.specs.Declarations as d;
ghost use Rattle.f77_store.specs.Layouts as l;
ghost use Rattle.f77_names.specs.Occurrences as o;
ghost use Rattle.f77_names.specs.Roles as r;

use super::areas::{Areas, Member, Place, blocks_of, commons_of, lay_out, so_far};
use super::sites::callees_of;
use super::storage::{Layout, Slot, locals_of, slots_of};
use f77_names::{
    Declaration, Facts, Known, Occurrence, declarations_of, facts_of, names_of, occurrences_of,
};
use f77_tree::{List, Name, Unit, blank_name};
use f77_values::Table;
use std::alloc::{AllocError, Global};

/// Slots, the size of the local area, and the blocks with their sizes.
#[derive(Drop)]
pub struct Stored {
    pub slots: List<Slot>,
    pub local_size: u32,
    pub blocks: List<(Name, u32)>,
}

fn local_area(
    alloc: Global,
    facts: &Facts,
    commons: &Table<Place>,
    names: &List<Known>,
) -> Result<Areas, AllocError>
    ensures places { IfOk result (λ a. a.places ≡ b.places (l.sizes facts.now) (l.locals facts.now commons.now names.now)) }
    ensures totals { IfOk result (λ a. b.AreTotals (l.sizes facts.now) (l.locals facts.now commons.now names.now) a.totals) }
{
    let locals = locals_of(alloc, facts, commons, names)?;
    lay_out(alloc, &facts.shapes, &locals)
}

fn place_names(
    alloc: Global,
    facts: &Facts,
    commons: &Table<Place>,
    blocks: List<(Name, u32)>,
    names: &List<Known>,
) -> Result<Stored, AllocError>
    ensures { IfOk result (λ all. all ≡ l.stored_in facts.now commons.now blocks names.now) }
{
    let own = local_area(alloc, facts, commons, names)?;
    let slots = slots_of(alloc, facts, commons, &own.places, names)?;
    let nameless = blank_name(alloc);
    let local_size = so_far(&own.totals, &nameless);
    Ok(Stored {
        slots,
        local_size,
        blocks,
    })
}

fn store(
    alloc: Global,
    facts: &Facts,
    commons: &List<Member>,
    names: &List<Known>,
) -> Result<Stored, AllocError>
    ensures { IfOk result (λ all. all ≡ l.stored facts.now commons.now names.now) }
{
    let shared = lay_out(alloc, &facts.shapes, commons)?;
    let blocks = blocks_of(alloc, commons, &shared.totals)?;
    place_names(alloc, facts, &shared.places, blocks, names)
}

fn lay_names(
    alloc: Global,
    facts: &Facts,
    all: &List<Occurrence>,
    commons: &List<Member>,
    names: List<Known>,
) -> Result<Layout, AllocError>
    ensures { IfOk result (λ layout. layout ≡ l.layout_with facts.now all.now commons.now names) }
{
    let callees = callees_of(alloc, &facts.attributes, all)?;
    let Stored {
        slots,
        local_size,
        blocks,
    } = store(alloc, facts, commons, &names)?;
    Ok(Layout {
        slots,
        local_size,
        blocks,
        names,
        callees,
    })
}

fn lay_facts(
    alloc: Global,
    facts: &Facts,
    all: &List<Occurrence>,
    declarations: &List<Declaration>,
) -> Result<Layout, AllocError>
    ensures { IfOk result (λ layout. layout ≡ l.layout_with facts.now all.now (b.commons declarations.now) (r.names_with facts.now all.now)) }
{
    let commons = commons_of(alloc, declarations)?;
    let names = names_of(alloc, facts, all)?;
    lay_names(alloc, facts, all, &commons, names)
}

fn lay_text(
    alloc: Global,
    unit: &Unit,
    all: &List<Occurrence>,
    declarations: &List<Declaration>,
) -> Result<Layout, AllocError>
    requires all { all.now ≡ o.occurrences unit.now }
    requires declarations { declarations.now ≡ d.declarations unit.now.statements }
    ensures { IfOk result (λ layout. layout ≡ l.layout_of unit.now) }
{
    let facts = facts_of(alloc, unit, all, declarations)?;
    lay_facts(alloc, &facts, all, declarations)
}

fn lay_unit(alloc: Global, unit: &Unit) -> Result<Layout, AllocError>
    ensures { IfOk result (λ layout. layout ≡ l.layout_of unit.now) }
{
    let all = occurrences_of(alloc, unit)?;
    let declarations = declarations_of(alloc, &unit.statements)?;
    lay_text(alloc, unit, &all, &declarations)
}

/// The storage of a unit.
pub fn layout(alloc: Global, unit: &Unit) -> Result<Layout, AllocError>
    ensures slots { IfOk result (λ all. all.slots ≡ l.slots unit.now) }
    ensures local_size { IfOk result (λ all. all.local_size ≡ l.local_size unit.now) }
    ensures blocks { IfOk result (λ all. all.blocks ≡ l.blocks unit.now) }
    ensures names { IfOk result (λ all. all.names ≡ r.names unit.now) }
    ensures callees { IfOk result (λ all. all.callees ≡ l.callees unit.now) }
{
    lay_unit(alloc, unit)
}

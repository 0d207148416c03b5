//! The items that a unit owns.
ghost use Rattle.std.specs.Prelude.{◌≡◌, ◌<◌, ◌≤◌, ◌^◌, length, min, IfOk};
ghost use Rattle.f77_tree.specs.declared.unit.Item.{Item};
ghost use Rattle.iv_set.specs.Toggles.{either};
ghost use Rattle.iv_set.specs.Sets.{has_item};
ghost use Rattle.fact_types.specs.Own.{in_dummies, in_local, in_area, in_areas, is_own};

use f77_tree::{Item, Name, Unit};
use iv_set::Ranges;
use std::alloc::{AllocError, Global};

fn add_dummies(alloc: Global, own: &mut Ranges, count: u64) -> Result<(), AllocError>
    requires { count ≤ 2 ^ 32 }
    ensures { IfOk result (λ _. (i : Item) → has_item own.new i ≡ either (has_item own.old i) (in_dummies count i)) }
{
    if count == 0 {
        return Ok(());
    }
    let last = (count - 1) as u32;
    own.add(alloc, &Item::Dummy(0), &Item::Dummy(last))?;
    Ok(())
}

fn add_local(alloc: Global, own: &mut Ranges, size: u32) -> Result<(), AllocError>
    ensures { IfOk result (λ _. (i : Item) → has_item own.new i ≡ either (has_item own.old i) (in_local size i)) }
{
    if size == 0 {
        return Ok(());
    }
    own.add(alloc, &Item::Local(0), &Item::Local(size - 1))?;
    Ok(())
}

fn add_area(alloc: Global, own: &mut Ranges, block: &Name, size: u32) -> Result<(), AllocError>
    ensures { IfOk result (λ _. (i : Item) → has_item own.new i ≡ either (has_item own.old i) (in_area block.now size i)) }
{
    if size == 0 {
        return Ok(());
    }
    let first = Item::Common(block.copy(alloc)?, 0);
    let last = Item::Common(block.copy(alloc)?, size - 1);
    own.add(alloc, &first, &last)?;
    Ok(())
}

fn add_areas(alloc: Global, own: &mut Ranges, areas: &[(Name, u32)]) -> Result<(), AllocError>
    ensures { IfOk result (λ _. (i : Item) → has_item own.new i ≡ either (has_item own.old i) (in_areas areas.now i)) }
{
    for area in areas {
        add_area(alloc, own, &area.0, area.1)?;
    }
    Ok(())
}

/// The items that a unit owns: its dummies, the units of its local area, and those of the blocks that it declares, up to
/// the size that it declares.
pub fn own_items(
    alloc: Global,
    unit: &Unit,
    areas: &[(Name, u32)],
    local_size: u32,
) -> Result<Ranges, AllocError>
    ensures { IfOk result (λ own. (i : Item) → has_item own i ≡ is_own unit.now areas.now local_size i) }
{
    let count = (unit.dummies.len() as u64).min(1 << 32);
    let mut own = Ranges::empty(alloc)?;
    add_dummies(alloc, &mut own, count)?;
    add_local(alloc, &mut own, local_size)?;
    add_areas(alloc, &mut own, areas)?;
    Ok(own)
}

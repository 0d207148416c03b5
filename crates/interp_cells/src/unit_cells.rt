//! The cells of COMMON blocks and of units, by their names.
ghost use Rattle.std.specs.Prelude.{◌≡◌, ℕ, List, None, Some, OnOk, cond, nat_eq, ◌&&◌, not};
ghost use Rattle.indexmap.specs.IndexMap.{get};
ghost use Rattle.f77_values.specs.Tables.{name_eq};
ghost use Rattle.interp_cells.specs.declared.unit_cells.Seat as spec;
ghost use Rattle.interp_cells.specs.UnitCells.{same_seat, block_cell, local_cell, fresh_cell};
ghost use Rattle.interp_cells.specs.Rows.{is_marked};

use super::row::Row;
use f77_tree::{Name, Value};
use indexmap::IndexMap;
use std::alloc::{AllocError, Global};

/// An actual argument by its site and its position there.
#[derive(Clone, Copy, Debug, Drop, PartialEq, Eq, Hash)]
pub struct Seat {
    pub site: usize,
    pub position: usize,
}

/// The local area of a unit, and the cells of the actual arguments without a location at its sites.
#[derive(Drop)]
pub struct UnitCells {
    pub row: Row,
    pub seats: IndexMap<Seat, Value>,
}

impl UnitCells {
    fn new(alloc: Global) -> UnitCells
        ensures row { (k : ℕ) → local_cell (Some result) k ≡ None }
        ensures seats { (s : spec.Seat) → fresh_cell (Some result) s ≡ None }
    {
        UnitCells {
            row: Row::new(alloc),
            seats: IndexMap::new(alloc),
        }
    }

    fn put_seat(&mut self, seat: Seat, value: Value) -> Result<(), AllocError>
        ensures row { OnOk result ((k : ℕ) → local_cell (Some self.new) k ≡ local_cell (Some self.old) k) }
        ensures seats { OnOk result ((s : spec.Seat) → fresh_cell (Some self.new) s ≡ cond (same_seat seat s) (Some value) (fresh_cell (Some self.old) s)) }
    {
        self.seats.insert(seat, value)?;
        Ok(())
    }

    fn put(&mut self, at: usize, value: Value) -> Result<(), AllocError>
        ensures row { OnOk result ((k : ℕ) → local_cell (Some self.new) k ≡ cond (nat_eq at k) (Some value) (local_cell (Some self.old) k)) }
        ensures seats { OnOk result ((s : spec.Seat) → fresh_cell (Some self.new) s ≡ fresh_cell (Some self.old) s) }
    {
        self.row.put(at, value)
    }

    fn clear_but(&mut self, marks: &[bool])
        ensures row { (k : ℕ) → local_cell (Some self.new) k ≡ cond (is_marked marks.now k) (local_cell (Some self.old) k) None }
        ensures seats { (s : spec.Seat) → fresh_cell (Some self.new) s ≡ None }
    {
        self.row.clear_but(marks);
        self.seats.clear();
    }
}

/// Stores to a cell of a COMMON block.
pub fn put_block(
    alloc: Global,
    blocks: &mut IndexMap<Name, Row>,
    name: &Name,
    at: usize,
    value: Value,
) -> Result<(), AllocError>
    ensures { OnOk result ((q : List ℕ) → (k : ℕ) → block_cell (get name_eq blocks.new q) k ≡ cond (name_eq name.now q && nat_eq at k) (Some value) (block_cell (get name_eq blocks.old q) k)) }
{
    if let Some(row) = blocks.get_mut(name) {
        return row.put(at, value);
    }
    let mut row = Row::new(alloc);
    row.put(at, value)?;
    blocks.insert(name.copy(alloc)?, row)?;
    Ok(())
}

/// Stores to a cell of a unit's local area.
pub fn put_local(
    alloc: Global,
    units: &mut IndexMap<Name, UnitCells>,
    name: &Name,
    at: usize,
    value: Value,
) -> Result<(), AllocError>
    ensures row { OnOk result ((q : List ℕ) → (k : ℕ) → local_cell (get name_eq units.new q) k ≡ cond (name_eq name.now q && nat_eq at k) (Some value) (local_cell (get name_eq units.old q) k)) }
    ensures seats { OnOk result ((q : List ℕ) → (s : spec.Seat) → fresh_cell (get name_eq units.new q) s ≡ fresh_cell (get name_eq units.old q) s) }
{
    if let Some(cells) = units.get_mut(name) {
        return cells.put(at, value);
    }
    let mut cells = UnitCells::new(alloc);
    cells.put(at, value)?;
    units.insert(name.copy(alloc)?, cells)?;
    Ok(())
}

/// Stores to the cell of an actual argument without a location.
pub fn put_fresh(
    alloc: Global,
    units: &mut IndexMap<Name, UnitCells>,
    name: &Name,
    seat: Seat,
    value: Value,
) -> Result<(), AllocError>
    ensures row { OnOk result ((q : List ℕ) → (k : ℕ) → local_cell (get name_eq units.new q) k ≡ local_cell (get name_eq units.old q) k) }
    ensures seats { OnOk result ((q : List ℕ) → (s : spec.Seat) → fresh_cell (get name_eq units.new q) s ≡ cond (name_eq name.now q && same_seat seat s) (Some value) (fresh_cell (get name_eq units.old q) s)) }
{
    if let Some(cells) = units.get_mut(name) {
        return cells.put_seat(seat, value);
    }
    let mut cells = UnitCells::new(alloc);
    cells.put_seat(seat, value)?;
    units.insert(name.copy(alloc)?, cells)?;
    Ok(())
}

/// Takes the values from the local cells of a unit that aren't marked, and from those of its actual arguments.
pub fn clear_unit(units: &mut IndexMap<Name, UnitCells>, name: &Name, marks: &[bool])
    ensures row { (q : List ℕ) → (k : ℕ) → local_cell (get name_eq units.new q) k ≡ cond (name_eq name.now q && not (is_marked marks.now k)) None (local_cell (get name_eq units.old q) k) }
    ensures seats { (q : List ℕ) → (s : spec.Seat) → fresh_cell (get name_eq units.new q) s ≡ cond (name_eq name.now q) None (fresh_cell (get name_eq units.old q) s) }
{
    if let Some(cells) = units.get_mut(name) {
        cells.clear_but(marks);
    }
}

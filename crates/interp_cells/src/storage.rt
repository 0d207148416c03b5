//! The cells of a program that runs.
ghost use Rattle.std.specs.Prelude.{◌≡◌, ℕ, None, OnOk, cond, option_map};
ghost use Rattle.run_model.specs.Storage.{Loc, put_cell};
ghost use Rattle.f77_semantics.specs.Program.{Routine};
ghost use Rattle.f77_semantics.specs.Units.{is_kept, is_cleared};
ghost use Rattle.f77_semantics.specs.Values.{stored};
ghost use Rattle.interp_cells.specs.Cells.{cells_of};
ghost use Rattle.interp_cells.specs.Rows.{is_marked};
ghost use Rattle.interp_cells.specs.Spots.{loc_of};

use super::row::Row;
use super::spot::{Area, Spot};
use super::unit_cells::{Seat, UnitCells, clear_unit, put_block, put_fresh, put_local};
use f77_tree::{Name, Value};
use indexmap::IndexMap;
use std::alloc::{AllocError, Global};

/// The cells of a program that runs, which contracts see by `cells_of` as the finite map of locations to values.
#[derive(Drop)]
pub struct Storage {
    commons: IndexMap<Name, Row>,
    units: IndexMap<Name, UnitCells>,
}

impl Storage {
    /// All cells are undefined.
    pub fn new(alloc: Global) -> Storage
        ensures { (l : Loc) → cells_of result l ≡ None }
    {
        Storage {
            commons: IndexMap::new(alloc),
            units: IndexMap::new(alloc),
        }
    }

    /// The value of a cell, if it has one.
    pub fn get(&self, spot: Spot) -> Option<Value>
        ensures { option_map stored result ≡ cells_of self.now (loc_of spot.entry) }
    {
        match spot.area {
            Area::Block(name) => self.commons.get(name)?.get(spot.offset),
            Area::Local(unit) => self.units.get(unit)?.row.get(spot.offset),
            Area::Fresh(unit, site, position) => {
                if spot.offset == 0 {
                    self.units
                        .get(unit)?
                        .seats
                        .get(&Seat { site, position })
                        .copied()
                } else {
                    None
                }
            }
        }
    }

    /// Stores a value to a cell.
    pub fn put(&mut self, alloc: Global, spot: Spot, value: Value) -> Result<(), AllocError>
        ensures { OnOk result ((l : Loc) → cells_of self.new l ≡ put_cell (loc_of spot.entry) (stored value) (cells_of self.old) l) }
    {
        match spot.area {
            Area::Block(name) => put_block(alloc, &mut self.commons, name, spot.offset, value),
            Area::Local(unit) => put_local(alloc, &mut self.units, unit, spot.offset, value),
            Area::Fresh(unit, site, position) => {
                if spot.offset == 0 {
                    put_fresh(alloc, &mut self.units, unit, Seat { site, position }, value)
                } else {
                    Err(AllocError)
                }
            }
        }
    }

    /// Makes the local cells of a unit that aren't marked undefined, and those of its actual arguments.
    pub fn clear(&mut self, unit: &Name, marks: &[bool])
        ensures { (u : Routine) → u.name ≡ unit.now → ((k : ℕ) → is_marked marks.now k ≡ is_kept u.kept k) → (l : Loc) → cells_of self.new l ≡ cond (is_cleared u l.area l.offset) None (cells_of self.old l) }
    {
        clear_unit(&mut self.units, unit, marks);
    }
}

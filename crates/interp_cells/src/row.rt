//! Cells one after another.
ghost use Rattle.std.specs.Prelude.{◌≡◌, ℕ, [], OnOk, Some, None, nat_eq, if◌then◌else◌};
ghost use Rattle.interp_cells.specs.Rows.{cell, is_marked};

use f77_tree::Value;
use std::alloc::{AllocError, Global};
use std::marker::Model;

/// The cells of an area up to the last that was stored to.
#[derive(Drop)]
pub struct Row {
    cells: Vec<Option<Value>>,
}

impl Model for Row {
    ghost use Rattle.std.specs.Prelude.{List, Option};
    ghost use Rattle.f77_tree.specs.declared.unit.Value as tree;

    ghost Value = { List (Option tree.Value) };

    ghost view = { λ r. r.cells.items };
}

fn is_marked(marks: &[bool], at: usize) -> bool
    ensures { result ≡ is_marked marks.now at }
{
    match marks.get(at) {
        Some(marked) => *marked,
        None => false,
    }
}

impl Row {
    /// No cell was stored to.
    pub fn new(alloc: Global) -> Row
        ensures { result ≡ [] }
    {
        Row {
            cells: Vec::new(alloc),
        }
    }

    /// The value of a cell, if it has one.
    pub fn get(&self, at: usize) -> Option<Value>
        ensures { result ≡ cell self.now at }
    {
        match self.cells.get(at) {
            Some(found) => *found,
            None => None,
        }
    }

    /// Stores a value.
    pub fn put(&mut self, at: usize, value: Value) -> Result<(), AllocError>
        ensures { OnOk result ((k : ℕ) → cell self.new k ≡ (if nat_eq at k then Some value else cell self.old k)) }
    {
        if self.cells.len() <= at {
            let count = at.checked_add(1).ok_or(AllocError)?;
            self.cells.resize(count, None)?;
        }
        self.cells[at] = Some(value);
        Ok(())
    }

    /// Takes the values from all cells but those marked.
    pub fn clear_but(&mut self, marks: &[bool])
        ensures { (k : ℕ) → cell self.new k ≡ (if is_marked marks.now k then cell self.old k else None) }
    {
        if marks.is_empty() {
            self.cells.clear();
            return;
        }
        for at in 0..self.cells.len() {
            if !is_marked(marks, at) {
                self.cells[at] = None;
            }
        }
    }
}

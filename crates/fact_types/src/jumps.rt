//! What a site tells of the values at its callee's entry, and summaries.
ghost use Rattle.std.specs.Prelude.{◌≡◌, IfOk};

use crate::facts::Facts;
use f77_tree::{Duplicate, Item, List, Value};
use std::alloc::{AllocError, Global};

/// A value at a call: a constant, the value that an item had at the caller's entry plus a number, or unknown.
#[derive(Drop)]
pub enum Jump {
    Constant(Value),
    Entry(Item, i64),
    Unknown,
}

/// The value of an item of the callee at a call.
#[derive(Drop)]
pub struct JumpEntry {
    pub target: Item,
    pub jump: Jump,
}

/// The facts of a unit, of all items of the program, and the jumps of each of its sites.
pub struct UnitSummary {
    pub whole: Facts,
    pub jumps: List<List<JumpEntry>>,
}

impl Drop for UnitSummary {
    fn drop(self) {
        let UnitSummary { whole, jumps } = self;
        drop(whole);
        drop(jumps)
    }
}

/// The summary of each unit of a program.
pub struct Summary {
    pub units: List<UnitSummary>,
}

impl Drop for Summary {
    fn drop(self) {
        let Summary { units } = self;
        drop(units)
    }
}

impl Jump {
    /// The same jump again.
    pub fn copy(&self, alloc: Global) -> Result<Jump, AllocError>
        ensures { IfOk result (λ again. again ≡ self.now) }
    {
        match self {
            Jump::Constant(value) => Ok(Jump::Constant(*value)),
            Jump::Entry(item, more) => Ok(Jump::Entry(item.copy(alloc)?, *more)),
            Jump::Unknown => Ok(Jump::Unknown),
        }
    }
}

impl JumpEntry {
    /// The same entry again.
    pub fn copy(&self, alloc: Global) -> Result<JumpEntry, AllocError>
        ensures { IfOk result (λ again. again ≡ self.now) }
    {
        Ok(JumpEntry {
            target: self.target.copy(alloc)?,
            jump: self.jump.copy(alloc)?,
        })
    }
}

impl Duplicate for JumpEntry {
    fn duplicate(&self, alloc: Global) -> Result<JumpEntry, AllocError> {
        self.copy(alloc)
    }
}

impl UnitSummary {
    /// The same summary again.
    pub fn copy(&self, alloc: Global) -> Result<UnitSummary, AllocError>
        ensures { IfOk result (λ again. again ≡ self.now) }
    {
        Ok(UnitSummary {
            whole: self.whole.copy(alloc)?,
            jumps: self.jumps.duplicate(alloc)?,
        })
    }
}

impl Duplicate for UnitSummary {
    fn duplicate(&self, alloc: Global) -> Result<UnitSummary, AllocError> {
        self.copy(alloc)
    }
}

impl Summary {
    /// The same summary again.
    pub fn copy(&self, alloc: Global) -> Result<Summary, AllocError>
        ensures { IfOk result (λ again. again ≡ self.now) }
    {
        Ok(Summary {
            units: self.units.duplicate(alloc)?,
        })
    }
}

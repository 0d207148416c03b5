//! Sites, what is passed at them, and what units do themselves.
ghost use Rattle.std.specs.Prelude.{◌≡◌, IfOk};

use f77_tree::{Duplicate, List, Name};
use iv_set::Ranges;
use std::alloc::{AllocError, Global};

/// What an actual argument stands for: a dummy by its position, a run of local units, a run of units of a COMMON block,
/// each with both ends, or a fresh temporary.
#[derive(Drop)]
pub enum Actual {
    Dummy(u32),
    Local(u32, u32),
    Common(Name, u32, u32),
    Fresh,
}

/// A CALL or a function reference. Lines are those of the unit, from 1.
pub struct Site {
    pub callee: Name,
    pub line: u32,
    pub actuals: List<Actual>,
}

impl Drop for Site {
    fn drop(self) {
        let Site {
            callee,
            line: _,
            actuals,
        } = self;
        drop(callee);
        drop(actuals)
    }
}

/// The units of a program, the sites of each, and the numbers of the units with callers before callees.
pub struct Graph {
    pub units: List<Name>,
    pub sites: List<List<Site>>,
    pub order: List<u32>,
}

impl Drop for Graph {
    fn drop(self) {
        let Graph {
            units,
            sites,
            order,
        } = self;
        drop(units);
        drop(sites);
        drop(order)
    }
}

/// The items that a unit's own statements may assign and read.
pub struct Effects {
    pub assigned: Ranges,
    pub used: Ranges,
}

impl Drop for Effects {
    fn drop(self) {
        let Effects { assigned, used } = self;
        drop(assigned);
        drop(used)
    }
}

impl Actual {
    /// The same actual again.
    pub fn copy(&self, alloc: Global) -> Result<Actual, AllocError>
        ensures { IfOk result (λ again. again ≡ self.now) }
    {
        match self {
            Actual::Dummy(position) => Ok(Actual::Dummy(*position)),
            Actual::Local(from, to) => Ok(Actual::Local(*from, *to)),
            Actual::Common(block, from, to) => Ok(Actual::Common(block.copy(alloc)?, *from, *to)),
            Actual::Fresh => Ok(Actual::Fresh),
        }
    }
}

impl Duplicate for Actual {
    fn duplicate(&self, alloc: Global) -> Result<Actual, AllocError> {
        self.copy(alloc)
    }
}

impl Site {
    /// The same site again.
    pub fn copy(&self, alloc: Global) -> Result<Site, AllocError>
        ensures { IfOk result (λ again. again ≡ self.now) }
    {
        Ok(Site {
            callee: self.callee.copy(alloc)?,
            line: self.line,
            actuals: self.actuals.duplicate(alloc)?,
        })
    }
}

impl Duplicate for Site {
    fn duplicate(&self, alloc: Global) -> Result<Site, AllocError> {
        self.copy(alloc)
    }
}

impl Graph {
    /// The same graph again.
    pub fn copy(&self, alloc: Global) -> Result<Graph, AllocError>
        ensures { IfOk result (λ again. again ≡ self.now) }
    {
        Ok(Graph {
            units: self.units.duplicate(alloc)?,
            sites: self.sites.duplicate(alloc)?,
            order: self.order.duplicate(alloc)?,
        })
    }
}

impl Effects {
    /// The same effects again.
    pub fn copy(&self, alloc: Global) -> Result<Effects, AllocError>
        ensures { IfOk result (λ again. again ≡ self.now) }
    {
        Ok(Effects {
            assigned: self.assigned.copy(alloc)?,
            used: self.used.copy(alloc)?,
        })
    }
}

impl Duplicate for Effects {
    fn duplicate(&self, alloc: Global) -> Result<Effects, AllocError> {
        self.copy(alloc)
    }
}

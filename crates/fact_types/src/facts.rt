//! Facts of a unit.
ghost use Rattle.std.specs.Prelude.{◌≡◌, IfOk};

use f77_tree::{Duplicate, List, Name};
use item_maps::{Constants, Pairs};
use iv_set::Ranges;
use std::alloc::{AllocError, Global};

/// The items that a call at a site may change and may read.
pub struct SiteFacts {
    pub callee: Name,
    pub may_mod: Ranges,
    pub may_ref: Ranges,
}

impl Drop for SiteFacts {
    fn drop(self) {
        let SiteFacts {
            callee,
            may_mod,
            may_ref,
        } = self;
        drop(callee);
        drop(may_mod);
        drop(may_ref)
    }
}

/// What is known of a unit: whether the program enters it, its sites in their order, which of its items may share
/// storage, and the values of items at its entry.
pub struct Facts {
    pub entered: bool,
    pub sites: List<SiteFacts>,
    pub aliases: Pairs,
    pub constants: Constants,
}

impl Drop for Facts {
    fn drop(self) {
        let Facts {
            entered: _,
            sites,
            aliases,
            constants,
        } = self;
        drop(sites);
        drop(aliases);
        drop(constants)
    }
}

impl SiteFacts {
    /// The same facts again.
    pub fn copy(&self, alloc: Global) -> Result<SiteFacts, AllocError>
        ensures { IfOk result (λ again. again ≡ self.now) }
    {
        Ok(SiteFacts {
            callee: self.callee.copy(alloc)?,
            may_mod: self.may_mod.copy(alloc)?,
            may_ref: self.may_ref.copy(alloc)?,
        })
    }
}

impl Duplicate for SiteFacts {
    fn duplicate(&self, alloc: Global) -> Result<SiteFacts, AllocError> {
        self.copy(alloc)
    }
}

impl Facts {
    /// The same facts again.
    pub fn copy(&self, alloc: Global) -> Result<Facts, AllocError>
        ensures { IfOk result (λ again. again ≡ self.now) }
    {
        Ok(Facts {
            entered: self.entered,
            sites: self.sites.duplicate(alloc)?,
            aliases: self.aliases.copy(alloc)?,
            constants: self.constants.copy(alloc)?,
        })
    }
}

impl Duplicate for Facts {
    fn duplicate(&self, alloc: Global) -> Result<Facts, AllocError> {
        self.copy(alloc)
    }
}

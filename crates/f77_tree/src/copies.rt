//! Copies of what trees are made of.
ghost use Rattle.std.specs.Prelude.{◌≡◌, IfOk};

use super::expr::Expr;
use super::name::Name;
use sqlite_items::Items as List;
use std::alloc::{AllocError, Global};

/// What can be copied to an equal value.
pub trait Duplicate: Drop {
    /// The same value again.
    fn duplicate(&self, alloc: Global) -> Result<Self, AllocError>
        ensures { IfOk result (λ again. again ≡ self.now) };
}

impl Duplicate for u8 {
    fn duplicate(&self, _alloc: Global) -> Result<u8, AllocError> {
        Ok(*self)
    }
}

impl Duplicate for u32 {
    fn duplicate(&self, _alloc: Global) -> Result<u32, AllocError> {
        Ok(*self)
    }
}

impl Duplicate for Name {
    fn duplicate(&self, alloc: Global) -> Result<Name, AllocError> {
        self.copy(alloc)
    }
}

impl Duplicate for Expr {
    fn duplicate(&self, alloc: Global) -> Result<Expr, AllocError> {
        self.copy(alloc)
    }
}

impl<T: Duplicate> Duplicate for Option<T> {
    fn duplicate(&self, alloc: Global) -> Result<Option<T>, AllocError> {
        match self {
            Some(value) => Ok(Some(value.duplicate(alloc)?)),
            None => Ok(None),
        }
    }
}

impl<A: Duplicate, B: Duplicate> Duplicate for (A, B) {
    fn duplicate(&self, alloc: Global) -> Result<(A, B), AllocError> {
        Ok((self.0.duplicate(alloc)?, self.1.duplicate(alloc)?))
    }
}

impl<T: Duplicate> Duplicate for List<T> {
    fn duplicate(&self, alloc: Global) -> Result<List<T>, AllocError> {
        let mut all = List::new(alloc);
        for item in self.as_slice() {
            all.push(item.duplicate(alloc)?)?;
        }
        Ok(all)
    }
}

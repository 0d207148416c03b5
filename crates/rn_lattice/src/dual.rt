use crate::{Lattice, Meets};
use std::alloc::{AllocError, Global};

/// A value in the order upside down.
#[derive(Drop)]
pub struct Dual<L> {
    pub inner: L,
}

impl<L: Meets> Lattice for Dual<L> {
    ghost use Rattle.rn_lattice.specs.Duals.{dual_leq, dual_of, dual_order};

    ghost is_value = { λ x. L.is_value x.inner };

    ghost leq = { dual_leq L.leq };

    ghost bottom = { dual_of L.top };

    fn bottom(alloc: Global) -> Result<Self, AllocError> {
        Ok(Dual {
            inner: L::top(alloc)?,
        })
    }

    fn leq(&self, other: &Self) -> bool {
        other.inner.leq(&self.inner)
    }

    fn join(&mut self, alloc: Global, other: &Self) -> Result<bool, AllocError> {
        self.inner.meet(alloc, &other.inner)
    }

    ghost order = { dual_order L.order L.greatest };
}

impl<L: Meets> Meets for Dual<L> {
    ghost use Rattle.rn_lattice.specs.Duals.{dual_of, dual_greatest};

    ghost top = { dual_of L.bottom };

    fn top(alloc: Global) -> Result<Self, AllocError> {
        Ok(Dual {
            inner: L::bottom(alloc)?,
        })
    }

    fn meet(&mut self, alloc: Global, other: &Self) -> Result<bool, AllocError> {
        self.inner.join(alloc, &other.inner)
    }

    ghost greatest = { dual_greatest L.order };
}

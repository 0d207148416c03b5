use crate::{Lattice, Meets};
use std::alloc::{AllocError, Global};

/// Two parts, each in its own order.
#[derive(Drop)]
pub struct Pair<A, B> {
    pub first: A,
    pub second: B,
}

impl<A: Lattice + Drop, B: Lattice + Drop> Lattice for Pair<A, B> {
    ghost use Rattle.rn_lattice.specs.Pairs.{PairIsValue, pair_leq, pair_of, pair_order};

    ghost is_value = { PairIsValue A.is_value B.is_value };

    ghost leq = { pair_leq A.leq B.leq };

    ghost bottom = { pair_of A.bottom B.bottom };

    fn bottom(alloc: Global) -> Result<Self, AllocError> {
        let first = A::bottom(alloc)?;
        let second = B::bottom(alloc)?;
        Ok(Pair { first, second })
    }

    fn leq(&self, other: &Self) -> bool {
        let below = self.first.leq(&other.first);
        self.second.leq(&other.second) & below
    }

    fn join(&mut self, alloc: Global, other: &Self) -> Result<bool, AllocError> {
        let rose = self.first.join(alloc, &other.first)?;
        Ok(self.second.join(alloc, &other.second)? | rose)
    }

    ghost order = { pair_order A.order B.order };
}

impl<A: Meets + Drop, B: Meets + Drop> Meets for Pair<A, B> {
    ghost use Rattle.rn_lattice.specs.Pairs.{pair_of, pair_greatest};

    ghost top = { pair_of A.top B.top };

    fn top(alloc: Global) -> Result<Self, AllocError> {
        let first = A::top(alloc)?;
        let second = B::top(alloc)?;
        Ok(Pair { first, second })
    }

    fn meet(&mut self, alloc: Global, other: &Self) -> Result<bool, AllocError> {
        let fell = self.first.meet(alloc, &other.first)?;
        Ok(self.second.meet(alloc, &other.second)? | fell)
    }

    ghost greatest = { pair_greatest A.greatest B.greatest };
}

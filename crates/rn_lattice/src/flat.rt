ghost use Rattle.std.specs.Prelude.{⊤};

use crate::{Lattice, Meets, Plain};
use std::alloc::{AllocError, Global};

/// Nothing, one value, or anything.
#[derive(Drop)]
pub enum Flat<V> {
    Bottom,
    Is(V),
    Top,
}

impl<V: Plain> Lattice for Flat<V> {
    ghost use Rattle.rn_lattice.specs.declared.flat.Flat.TheVariants.{Bottom};
    ghost use Rattle.rn_lattice.specs.Flats.{flat_leq, flat_order};

    ghost is_value = { λ _. ⊤ };

    ghost leq = { flat_leq V.eq };

    ghost bottom = { Bottom };

    fn bottom(_alloc: Global) -> Result<Self, AllocError> {
        Ok(Flat::Bottom)
    }

    fn leq(&self, other: &Self) -> bool {
        match (self, other) {
            (Flat::Bottom, _) | (_, Flat::Top) => true,
            (Flat::Is(value), Flat::Is(with)) => value == with,
            _ => false,
        }
    }

    fn join(&mut self, _alloc: Global, other: &Self) -> Result<bool, AllocError> {
        if other.leq(self) {
            return Ok(false);
        }
        *self = match (&*self, other) {
            (Flat::Bottom, Flat::Is(value)) => Flat::Is(value.clone()?),
            _ => Flat::Top,
        };
        Ok(true)
    }

    ghost order = { flat_order V.Eq.laws V.equal_is_same };
}

impl<V: Plain> Meets for Flat<V> {
    ghost use Rattle.rn_lattice.specs.declared.flat.Flat.TheVariants.{Top};
    ghost use Rattle.rn_lattice.specs.Flats.{flat_greatest};

    ghost top = { Top };

    fn top(_alloc: Global) -> Result<Self, AllocError> {
        Ok(Flat::Top)
    }

    fn meet(&mut self, _alloc: Global, other: &Self) -> Result<bool, AllocError> {
        if self.leq(other) {
            return Ok(false);
        }
        *self = match (&*self, other) {
            (Flat::Top, Flat::Is(value)) => Flat::Is(value.clone()?),
            _ => Flat::Bottom,
        };
        Ok(true)
    }

    ghost greatest = { flat_greatest V.Eq.laws V.equal_is_same };
}

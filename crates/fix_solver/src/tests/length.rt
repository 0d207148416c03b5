//! Lengths of names, up to 255.
ghost use Rattle.std.specs.Prelude.{◌≡◌};
ghost use Rattle.fix_solver.specs.Shortest.{length_of};

use rn_lattice::{Lattice, Meets};
use std::alloc::{AllocError, Global};
use std::marker::Model;

/// Seen as the number of bytes, 255 where there are more.
#[derive(Drop)]
pub struct Length {
    count: u8,
}

impl Model for Length {
    ghost use Rattle.std.specs.Prelude.{ℕ};

    ghost Value = { ℕ };

    ghost view = { λ l. l.count };
}

impl Length {
    pub fn of(name: &[u8]) -> Length
        ensures { result ≡ length_of name.now }
    {
        Length {
            count: name.len().min(255) as u8,
        }
    }

    pub fn count(&self) -> u8
        ensures { result ≡ self.now }
    {
        self.count
    }
}

impl Lattice for Length {
    ghost use Rattle.std.specs.Prelude.{nat_le};
    ghost use Rattle.fix_solver.specs.Shortest.{IsLength};
    ghost use Rattle.fix_solver.specs.ShortestLaws.{length_order};

    ghost is_value = { IsLength };

    ghost leq = { nat_le };

    ghost bottom = { 0 };

    fn bottom(_alloc: Global) -> Result<Self, AllocError> {
        Ok(Length { count: 0 })
    }

    fn leq(&self, other: &Self) -> bool {
        self.count <= other.count
    }

    fn join(&mut self, _alloc: Global, other: &Self) -> Result<bool, AllocError> {
        let rose = self.count < other.count;
        self.count = self.count.max(other.count);
        Ok(rose)
    }

    ghost order = { length_order };
}

impl Meets for Length {
    ghost use Rattle.fix_solver.specs.ShortestLaws.{length_greatest};

    ghost top = { 255 };

    fn top(_alloc: Global) -> Result<Self, AllocError> {
        Ok(Length { count: 255 })
    }

    fn meet(&mut self, _alloc: Global, other: &Self) -> Result<bool, AllocError> {
        let fell = other.count < self.count;
        self.count = self.count.min(other.count);
        Ok(fell)
    }

    ghost greatest = { length_greatest };
}

//! Truth values, false below true.
ghost use Rattle.std.specs.Prelude.{◌≡◌, ⊤};

use rn_lattice::Lattice;
use std::alloc::{AllocError, Global};
use std::marker::Model;

/// Seen as the truth value.
#[derive(Drop)]
pub struct Flag {
    on: bool,
}

impl Model for Flag {
    ghost use Rattle.std.specs.Prelude.{Bool};

    ghost Value = { Bool };

    ghost view = { λ f. f.on };
}

impl Flag {
    pub fn new(on: bool) -> Flag
        ensures { result ≡ on }
    {
        Flag { on }
    }

    pub fn is_on(&self) -> bool
        ensures { result ≡ self.now }
    {
        self.on
    }
}

impl Lattice for Flag {
    ghost use Rattle.std.specs.Prelude.{false};
    ghost use Rattle.fix_solver.specs.Reachability.{flag_leq};
    ghost use Rattle.fix_solver.specs.ReachabilityLaws.{flag_order};

    ghost is_value = { λ _. ⊤ };

    ghost leq = { flag_leq };

    ghost bottom = { false };

    fn bottom(_alloc: Global) -> Result<Self, AllocError> {
        Ok(Flag { on: false })
    }

    fn leq(&self, other: &Self) -> bool {
        !self.on | other.on
    }

    fn join(&mut self, _alloc: Global, other: &Self) -> Result<bool, AllocError> {
        let rose = other.on & !self.on;
        self.on |= other.on;
        Ok(rose)
    }

    ghost order = { flag_order };
}

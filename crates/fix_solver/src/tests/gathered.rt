//! A value of a node's own, joined with those of its sources.
ghost use Rattle.std.specs.Prelude.{◌<◌, All, length, slice_index_or, IfOk};
ghost use Rattle.fix_solver.specs.Gathering.{IsGathered};

use rn_lattice::Lattice;
use std::alloc::{AllocError, Global};

/// The least upper bound of the value and those of the sources.
pub fn gathered<L: Lattice + Drop>(
    alloc: Global,
    own: L,
    sources: &[usize],
    values: &[L],
) -> Result<L, AllocError>
    requires inside { All (λ m. m < length values.now) sources.now }
    requires value { L.is_value own }
    ensures { IfOk result (λ all. IsGathered L.is_value L.leq own sources.now (λ m. slice_index_or values.now m own) all) }
{
    let mut all = own;
    for source in sources {
        all.join(alloc, &values[*source])?;
    }
    Ok(all)
}

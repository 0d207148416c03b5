//! What a name of a unit stands for.
ghost use Rattle.std.specs.Prelude.{◌≡◌, IfOk};
ghost use Rattle.interp_data.specs.Meanings as m;
ghost use Rattle.interp_data.specs.Meant.{meant};

use super::lookup::Lookup;
use super::meaning::Meaning;
use f77_tree::Name;
use std::alloc::{AllocError, Global};

/// What a name stands for.
pub fn meaning_of(alloc: Global, names: &Lookup, name: &Name) -> Result<Meaning, AllocError>
    ensures { IfOk result (λ meaning. m.meant_of meaning ≡ meant names.now name.now) }
{
    names.meaning(alloc, name)
}

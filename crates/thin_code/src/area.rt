//! The storage of a program: its variables in the order of their first appearances, a storage unit each.
ghost use Rattle.std.specs.Prelude.{◌+◌, ◌*◌, ◌^◌, ◌<◌};
ghost use Rattle.indexmap.specs.IndexSet.{index_set_len};

use f77_tree::Name;
use indexmap::IndexSet;

/// The variables, and the address of their first storage unit.
#[derive(Drop)]
pub struct Area {
    pub names: IndexSet<Name>,
    pub address: u64,
    ghost within: { address + 8 * index_set_len names < 2 ^ 63 },
}

//! Where temporaries are kept.

use f77_tree::List;

/// The register of each temporary, by its number. One without a register is kept in the unit's area.
#[derive(Drop)]
pub struct Places {
    pub registers: List<Option<u8>>,
}

//! Faults at a place.
ghost use Rattle.std.specs.Prelude.{IfOk};
ghost use Rattle.f77_expr.specs.Longest as s;

use f77_tree::{Duplicate, Place, SourceFault};
use std::alloc::{AllocError, Global};

/// The fault of this number at a copy of the place.
pub(crate) fn fault_at(alloc: Global, number: u8, at: &Place) -> Result<SourceFault, AllocError>
    ensures fault { IfOk result (λ fault. s.IsFaultAt fault number at.now) }
{
    let place = Place {
        unit: at.unit.duplicate(alloc)?,
        line: at.line,
    };
    Ok(SourceFault {
        number,
        place,
        limit: 0,
    })
}

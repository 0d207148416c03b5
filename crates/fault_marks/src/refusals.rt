//! A fault as the answer of a call.
ghost use Rattle.fault_marks.specs.Refusals as r;

use super::marks::Mark;
use f77_tree::{Name, Place, Refused, SourceFault};
use std::alloc::Global;

/// The refusal that tells a fault of the unit of this name.
pub fn refusal(alloc: Global, name: &Name, mark: Mark) -> Refused
    ensures told { r.RefusesMark result name.now mark }
{
    let Ok(unit) = name.copy(alloc) else {
        return Refused::OutOfMemory;
    };
    Refused::Fault(SourceFault {
        number: mark.number,
        place: Place {
            unit: Some(unit),
            line: mark.line,
        },
        limit: mark.limit,
    })
}

//! Where a unit's members of COMMON blocks stand.
ghost use Rattle.std.specs.Prelude.{◌≡◌, IfOk};
ghost use Rattle.f77_store.specs.Areas as b;
ghost use Rattle.f77_names.specs.Declarations as d;
ghost use Rattle.check_common.specs.Storage as s;

use super::places::{Start, starts_of};
use f77_names::{Declaration, Shape, shapes_of};
use f77_store::Member;
use f77_tree::{List, Stmt, Unit, Value};
use f77_values::{Table, constants_of};
use std::alloc::{AllocError, Global};

/// Where a unit's members of COMMON blocks stand, the shapes of its arrays, and its named constants.
#[derive(Drop)]
pub struct Storage {
    pub starts: Table<Start>,
    pub shapes: Table<Shape>,
    pub constants: Table<Value>,
}

fn stored(
    alloc: Global,
    shapes: Table<Shape>,
    members: &List<Member>,
    statements: &List<Stmt>,
) -> Result<Storage, AllocError>
    ensures { IfOk result (λ all. all ≡ s.storage_with shapes members.now statements.now) }
{
    let starts = starts_of(alloc, &shapes, members)?;
    let constants = constants_of(alloc, statements)?;
    Ok(Storage {
        starts,
        shapes,
        constants,
    })
}

/// The storage of a unit, given its declarations and its members of COMMON blocks.
pub fn storage_of(
    alloc: Global,
    unit: &Unit,
    declarations: &List<Declaration>,
    members: &List<Member>,
) -> Result<Storage, AllocError>
    requires declarations { declarations.now ≡ d.declarations unit.now.statements }
    requires members { members.now ≡ b.commons declarations.now }
    ensures { IfOk result (λ all. all ≡ s.storage unit.now) }
{
    let shapes = shapes_of(alloc, declarations)?;
    stored(alloc, shapes, members, &unit.statements)
}

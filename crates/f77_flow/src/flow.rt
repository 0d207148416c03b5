//! Which statements may follow which, and the loops of a unit.
ghost use Rattle.std.specs.Prelude.{◌≡◌, ◌<◌, ◌^◌, length, IfOk};
ghost use Rattle.f77_flow.specs.Next as n;
ghost use Rattle.f77_flow.specs.Checks as c;

use crate::control::Control;
use crate::loops::Loop;
use crate::next::begins;
use crate::once::once;
use crate::table::filled;
use f77_tree::{List, Unit};
use std::alloc::{AllocError, Global};

/// The statements that may follow each statement, and the loops. Statements are numbered from 0.
#[derive(Drop)]
pub struct Flow {
    pub next: List<List<u32>>,
    pub loops: List<Loop>,
}

/// The statements that may follow each statement of the unit, and its loops.
pub fn flow_of(alloc: Global, unit: &Unit) -> Result<Flow, AllocError>
    requires { length unit.now.statements < 2 ^ 32 }
    ensures next { IfOk result (λ flow. n.IsNextOfEach unit.now.statements flow.next) }
    ensures nodes { IfOk result (λ flow. c.PassedChecks unit.now.statements → c.LeadToNodes unit.now.statements flow.next) }
    ensures loops { IfOk result (λ flow. flow.loops ≡ n.loops unit.now.statements) }
{
    let statements = unit.statements.as_slice();
    let control = Control::new(alloc, statements)?;
    let mut marks = filled(alloc, 0, statements.len() + 1)?;
    let mut next = List::new(alloc);
    for k in 0..statements.len() {
        let all = begins(alloc, &control, k)?;
        next.push(once(alloc, all.as_slice(), &mut marks, (k + 1) as u32)?)?;
    }
    let loops = control.loops(alloc)?;
    Ok(Flow { next, loops })
}

//! The first of the faults of a unit in its labels, jumps, DOs and block IFs.
ghost use Rattle.std.specs.Prelude.{◌≡◌, ◌<◌, ◌^◌, ◌⊎◌, length, IfOk};
ghost use Rattle.fault_marks.specs.Earliest as e;
ghost use Rattle.fault_marks.specs.Places as p;
ghost use Rattle.f77_flow.specs.Checks as c;
ghost use Rattle.check_jumps.specs.Nests as n;
ghost use Rattle.check_jumps.specs.Faults as f;

use crate::jumps::astray;
use crate::labels::{nowhere, repeated};
use crate::lasts::bad_ends;
use crate::nesting::misnested;
use crate::nests::Nests;
use f77_flow::Control;
use f77_tree::Stmt;
use fault_marks::{Mark, earliest_flagged, first_of};
use std::alloc::{AllocError, Global};

fn nowhere_fault(alloc: Global, control: &Control) -> Result<Option<Mark>, AllocError>
    ensures { IfOk result (λ mark. e.Earliest (p.ShowsAt control.now.statements.now (c.JumpsNowhere control.now.statements.now) 14 0) mark) }
{
    let flags = nowhere(alloc, control)?;
    Ok(earliest_flagged(control.statements, flags.as_slice(), 14, 0))
}

fn repeated_fault(alloc: Global, statements: &[Stmt]) -> Result<Option<Mark>, AllocError>
    ensures { IfOk result (λ mark. e.Earliest (p.ShowsAt statements.now (c.RepeatsLabel statements.now) 15 0) mark) }
{
    let flags = repeated(alloc, statements)?;
    Ok(earliest_flagged(statements, flags.as_slice(), 15, 0))
}

fn astray_fault(alloc: Global, nests: &Nests) -> Result<Option<Mark>, AllocError>
    requires { n.AreNests nests.now }
    ensures { IfOk result (λ mark. e.Earliest (p.ShowsAt nests.now.parts.control.statements.now (c.JumpsAstray nests.now.parts.control.statements.now) 16 0) mark) }
{
    let flags = astray(alloc, nests)?;
    Ok(earliest_flagged(nests.parts.control.statements, flags.as_slice(), 16, 0))
}

fn bad_end_fault(alloc: Global, control: &Control) -> Result<Option<Mark>, AllocError>
    ensures { IfOk result (λ mark. e.Earliest (p.ShowsAt control.now.statements.now (c.EndsLoopBadly control.now.statements.now) 17 0) mark) }
{
    let flags = bad_ends(alloc, control)?;
    Ok(earliest_flagged(control.statements, flags.as_slice(), 17, 0))
}

fn misnested_fault(alloc: Global, nests: &Nests) -> Result<Option<Mark>, AllocError>
    requires { n.AreNests nests.now }
    ensures { IfOk result (λ mark. e.Earliest (p.ShowsAt nests.now.parts.control.statements.now (c.IsMisnested nests.now.parts.control.statements.now) 18 0) mark) }
{
    let flags = misnested(alloc, nests)?;
    Ok(earliest_flagged(nests.parts.control.statements, flags.as_slice(), 18, 0))
}

// The first of the faults of these statements.
fn fault_in(alloc: Global, nests: &Nests) -> Result<Option<Mark>, AllocError>
    requires { n.AreNests nests.now }
    ensures { IfOk result (λ mark. e.Earliest (f.JumpFaults nests.now.parts.control.statements.now) mark) }
{
    let nowhere = nowhere_fault(alloc, &nests.parts.control)?;
    let repeated = repeated_fault(alloc, nests.parts.control.statements)?;
    let astray = astray_fault(alloc, nests)?;
    let bad_end = bad_end_fault(alloc, &nests.parts.control)?;
    let misnested = misnested_fault(alloc, nests)?;
    let labels = first_of(nowhere, repeated);
    let ends = first_of(bad_end, misnested);
    let jumps = first_of(astray, ends);
    Ok(first_of(labels, jumps))
}

/// The first of faults 14 to 18 of a unit with these statements, by line and number.
pub fn jump_fault(alloc: Global, statements: &[Stmt]) -> Result<Option<Mark>, AllocError>
    requires small { length statements.now < 2 ^ 32 }
    ensures earliest { IfOk result (λ mark. e.Earliest (f.JumpFaults statements.now) mark) }
{
    let nests = Nests::new(alloc, statements)?;
    fault_in(alloc, &nests)
}

//! The statements at which DOs and block IFs don't nest.
ghost use Rattle.std.specs.Prelude.{◌≡◌, ◌<◌, ◌^◌, length, IfOk};
ghost use Rattle.f77_flow.specs.Labels as l;
ghost use Rattle.f77_flow.specs.Checks as c;
ghost use Rattle.check_jumps.specs.Telling.{Tells, AreFlags};
ghost use Rattle.check_jumps.specs.Nests as n;

use crate::nests::Nests;
use crate::parts::{Parts, is_block, is_else, kind_at};
use f77_flow::{Control, Kind};
use f77_tree::List;
use std::alloc::{AllocError, Global};

fn is_do(kind: Kind) -> bool
    ensures { Tells result (n.IsDo kind) }
{
    match kind {
        Kind::Do(_) => true,
        _ => false,
    }
}

fn is_block_if(kind: Kind) -> bool
    ensures { Tells result (n.IsBlockIf kind) }
{
    match kind {
        Kind::BlockIf => true,
        _ => false,
    }
}

fn is_end_if(kind: Kind) -> bool
    ensures { Tells result (n.IsEndIf kind) }
{
    match kind {
        Kind::EndIf => true,
        _ => false,
    }
}

// Whether the last statement of the DO at d stands below it.
fn has_range(control: &Control, d: usize) -> bool
    requires { d < length control.now.statements.now }
    ensures { result ≡ l.has_range control.now.statements.now d }
{
    (control.last(d) as usize) < control.statements.len()
}

// Whether statement k is a DO or block IF without its end.
fn lacks_end(control: &Control, k: usize) -> bool
    requires { k < length control.now.statements.now }
    ensures { Tells result (n.LacksEnd control.now.statements.now k) }
{
    let kind = kind_at(control, k);
    if is_do(kind) {
        return !has_range(control, k);
    }
    if is_block_if(kind) {
        return !is_block(control, k);
    }
    false
}

// Whether statement k is an ELSE IF, ELSE or END IF without its block IF.
fn lacks_block(parts: &Parts, k: usize) -> bool
    requires { k < length parts.now.control.statements.now }
    ensures { Tells result (n.LacksBlock parts.now.control.statements.now k) }
{
    let kind = kind_at(&parts.control, k);
    if is_else(kind) {
        return !parts.is_part(k);
    }
    if is_end_if(kind) {
        return !parts.ends_block(k);
    }
    false
}

// Whether statement k is a part of a block IF behind its ELSE.
fn stands_behind_else(nests: &Nests, k: usize) -> bool
    requires within { k < length nests.now.parts.control.statements.now }
    requires right { n.AreNests nests.now }
    ensures { Tells result (c.StandsBehindElse nests.now.parts.control.statements.now k) }
{
    if !nests.parts.is_part(k) {
        return false;
    }
    let end = nests.parts.control.end_if(k) as usize;
    (nests.elses.as_slice()[end] as usize) < k
}

// Whether a DO begins at d that leaves an arm.
fn leaves_arm(nests: &Nests, d: usize) -> bool
    requires within { d < length nests.now.parts.control.statements.now }
    requires right { n.AreNests nests.now }
    ensures { Tells result (c.LeavesArm nests.now.parts.control.statements.now d) }
{
    let last = nests.parts.control.last(d);
    if last as usize >= nests.parts.control.statements.len() {
        return false;
    }
    nests.arms.ends_before(d, last)
}

// Whether a DO or block IF begins at k that overlaps one above it.
fn overlaps(nests: &Nests, k: usize) -> bool
    requires within { k < length nests.now.parts.control.statements.now }
    requires right { n.AreNests nests.now }
    ensures { Tells result (c.Overlaps nests.now.parts.control.statements.now k) }
{
    let end = nests.spans.ends.as_slice()[k];
    nests.spans.ends_before(k, end)
}

fn is_misnested(nests: &Nests, k: usize) -> bool
    requires within { k < length nests.now.parts.control.statements.now }
    requires right { n.AreNests nests.now }
    ensures { Tells result (c.IsMisnested nests.now.parts.control.statements.now k) }
{
    if lacks_end(&nests.parts.control, k) {
        return true;
    }
    if lacks_block(&nests.parts, k) {
        return true;
    }
    if stands_behind_else(nests, k) {
        return true;
    }
    if leaves_arm(nests, k) {
        return true;
    }
    overlaps(nests, k)
}

/// The statements at which DOs and block IFs don't nest.
pub fn misnested(alloc: Global, nests: &Nests) -> Result<List<bool>, AllocError>
    requires { n.AreNests nests.now }
    ensures { IfOk result (λ flags. AreFlags (c.IsMisnested nests.now.parts.control.statements.now) (length nests.now.parts.control.statements.now) flags) }
{
    let mut flags = List::new(alloc);
    for k in 0..nests.parts.control.statements.len() {
        flags.push(is_misnested(nests, k))?;
    }
    Ok(flags)
}

//! Jumps that go astray: to an ELSE, or into a range or an arm that doesn't hold them.
ghost use Rattle.std.specs.Prelude.{◌≡◌, ℕ, ◌<◌, length, IfOk, OnOk};
ghost use Rattle.f77_flow.specs.Checks as c;
ghost use Rattle.check_jumps.specs.Telling.{Tells, AreFlags, Marks};
ghost use Rattle.check_jumps.specs.Nests as n;
ghost use Rattle.check_jumps.specs.Astray as a;

use crate::labels::jump_labels;
use crate::nests::Nests;
use crate::parts::{is_else, kind_at};
use f77_tree::List;
use std::alloc::{AllocError, Global};

// Whether a range or an arm holds t, and not k.
fn enters(nests: &Nests, k: usize, t: usize) -> bool
    requires from { k < length nests.now.parts.control.statements.now }
    requires to { t < length nests.now.parts.control.statements.now }
    requires right { n.AreNests nests.now }
    ensures { Tells result (c.EntersSpan nests.now.parts.control.statements.now k t) }
{
    if nests.ranges.enters(k, t) {
        return true;
    }
    nests.arms.enters(k, t)
}

// Whether no jump from k may go to t.
fn is_astray(nests: &Nests, k: usize, t: usize) -> bool
    requires from { k < length nests.now.parts.control.statements.now }
    requires to { t < length nests.now.parts.control.statements.now }
    requires right { n.AreNests nests.now }
    ensures { Tells result (a.IsAstray nests.now.parts.control.statements.now k t) }
{
    if is_else(kind_at(&nests.parts.control, t)) {
        return true;
    }
    enters(nests, k, t)
}

// Sets the flag of the later of k and the label's statement, where a jump from the one to the other goes astray.
fn flag_jump(nests: &Nests, k: usize, label: u32, flags: &mut List<bool>)
    requires within { k < length nests.now.parts.control.statements.now }
    requires long { length flags.old ≡ length nests.now.parts.control.statements.now }
    requires right { n.AreNests nests.now }
    ensures { Marks (a.IsToldAt nests.now.parts.control.statements.now k label) flags.old flags.new }
{
    let t = nests.parts.control.target(label) as usize;
    if t >= nests.parts.control.statements.len() {
        return;
    }
    if !is_astray(nests, k, t) {
        return;
    }
    flags.set(k.max(t), true);
}

// The same for each of the labels.
fn flag_jumps(nests: &Nests, k: usize, labels: &[u32], flags: &mut List<bool>)
    requires within { k < length nests.now.parts.control.statements.now }
    requires long { length flags.old ≡ length nests.now.parts.control.statements.now }
    requires right { n.AreNests nests.now }
    ensures { Marks (a.IsToldOf nests.now.parts.control.statements.now k labels.now (length labels.now)) flags.old flags.new }
{
    for label in labels {
        flag_jump(nests, k, *label, flags);
    }
}

fn flag_statement(
    alloc: Global,
    nests: &Nests,
    k: usize,
    flags: &mut List<bool>,
) -> Result<(), AllocError>
    requires within { k < length nests.now.parts.control.statements.now }
    requires long { length flags.old ≡ length nests.now.parts.control.statements.now }
    requires right { n.AreNests nests.now }
    ensures { OnOk result (Marks (a.IsToldFrom nests.now.parts.control.statements.now k) flags.old flags.new) }
{
    let labels = jump_labels(alloc, &nests.parts.control.statements[k].form)?;
    flag_jumps(nests, k, labels.as_slice(), flags);
    Ok(())
}

fn unset(alloc: Global, count: usize) -> Result<List<bool>, AllocError>
    ensures { IfOk result (λ flags. a.AreUnset count flags) }
{
    Ok(List::from_vec(vec![in alloc; false; count]?))
}

/// The later of each jump that goes astray and its target.
pub fn astray(alloc: Global, nests: &Nests) -> Result<List<bool>, AllocError>
    requires { n.AreNests nests.now }
    ensures { IfOk result (λ flags. AreFlags (c.JumpsAstray nests.now.parts.control.statements.now) (length nests.now.parts.control.statements.now) flags) }
{
    let mut flags = unset(alloc, nests.parts.control.statements.len())?;
    for k in 0..nests.parts.control.statements.len() {
        flag_statement(alloc, nests, k, &mut flags)?;
    }
    Ok(flags)
}

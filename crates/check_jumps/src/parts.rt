//! Block IFs, looked up by their END IFs and from their parts.
ghost use Rattle.std.specs.Prelude.{◌≡◌, ◌<◌, ◌≤◌, ◌^◌, length, IfOk};
ghost use Rattle.f77_flow.specs.Kinds as kinds;
ghost use Rattle.f77_flow.specs.Blocks as b;
ghost use Rattle.f77_flow.specs.Spans as s;
ghost use Rattle.check_jumps.specs.Telling.{Tells, IsChoice, AreChoices};
ghost use Rattle.check_jumps.specs.Parts as p;

use crate::intervals::first_endings;
use f77_flow::{Control, Kind, kind_of};
use f77_tree::{List, Stmt};
use std::alloc::{AllocError, Global};

/// Where control goes in some statements, and for each END IF the block IF that it ends.
pub struct Parts<'a> {
    pub control: Control<'a>,
    openers: List<u32>,
    ghost right: { p.AreOpeners control.statements.now openers },
}

// A call of its own, so that who drops it doesn't open its tables.
impl Drop for Parts<'_> {
    fn drop(self) {
        let Parts { control, openers } = self;
    }
}

impl<'a> Parts<'a> {
    /// The block IFs of these statements.
    pub fn new(alloc: Global, statements: &'a [Stmt]) -> Result<Parts<'a>, AllocError>
        requires { length statements.now < 2 ^ 32 }
        ensures { IfOk result (λ parts. parts.control.statements.now ≡ statements.now) }
    {
        let control = Control::new(alloc, statements)?;
        let openers = openers_of(alloc, &control)?;
        Ok(Parts { control, openers })
    }

    /// Whether statement h is an ELSE IF or ELSE of a block IF.
    pub fn is_part(&self, h: usize) -> bool
        requires { h < length self.now.control.statements.now }
        ensures { Tells result (p.IsPart self.now.control.statements.now h) }
    {
        if !is_else(kind_at(&self.control, h)) {
            return false;
        }
        let end = self.control.end_if(h) as usize;
        if end >= self.control.statements.len() {
            return false;
        }
        (self.openers.as_slice()[end] as usize) < h
    }

    /// Whether a block IF ends at statement e.
    pub fn ends_block(&self, e: usize) -> bool
        requires { e < length self.now.control.statements.now }
        ensures { Tells result (p.EndsBlock self.now.control.statements.now e) }
    {
        (self.openers.as_slice()[e] as usize) < e
    }

    /// Whether statement h begins an arm of a block IF.
    pub fn begins_arm(&self, h: usize) -> bool
        requires { h < length self.now.control.statements.now }
        ensures { Tells result (p.BeginsArm self.now.control.statements.now h) }
    {
        if is_block(&self.control, h) {
            return true;
        }
        self.is_part(h)
    }

    /// Whether statement h is the ELSE of a block IF.
    pub fn is_else_part(&self, h: usize) -> bool
        requires { h < length self.now.control.statements.now }
        ensures { Tells result (p.IsElsePart self.now.control.statements.now h) }
    {
        match kind_at(&self.control, h) {
            Kind::Else => self.is_part(h),
            _ => false,
        }
    }
}

/// The kind of statement k.
pub fn kind_at(control: &Control, k: usize) -> Kind
    requires { k < length control.now.statements.now }
    ensures { result ≡ kinds.kind_at control.now.statements.now k }
{
    kind_of(&control.statements[k].form)
}

/// Whether this is the kind of an ELSE IF or ELSE.
pub fn is_else(kind: Kind) -> bool
    ensures { Tells result (s.IsElse kind) }
{
    match kind {
        Kind::ElseIf | Kind::Else => true,
        _ => false,
    }
}

/// Whether statement k is a block IF that has an END IF.
pub fn is_block(control: &Control, k: usize) -> bool
    requires { k < length control.now.statements.now }
    ensures { Tells result (s.IsBlock control.now.statements.now k) }
{
    match kind_at(control, k) {
        Kind::BlockIf => (control.end_if(k) as usize) < control.statements.len(),
        _ => false,
    }
}

// The END IF of the block IF at k, or k where there is none.
fn block_end(control: &Control, k: usize) -> u32
    requires within { k < length control.now.statements.now }
    requires small { length control.now.statements.now < 2 ^ 32 }
    ensures { IsChoice (s.IsBlock control.now.statements.now k) (b.end_if control.now.statements.now k) k result }
{
    if is_block(control, k) {
        return control.end_if(k);
    }
    k as u32
}

fn block_ends(alloc: Global, control: &Control) -> Result<List<u32>, AllocError>
    requires { length control.now.statements.now < 2 ^ 32 }
    ensures { IfOk result (λ ends. AreChoices (s.IsBlock control.now.statements.now) (b.end_if control.now.statements.now) (length control.now.statements.now) ends) }
{
    let mut ends = List::new(alloc);
    for k in 0..control.statements.len() {
        ends.push(block_end(control, k))?;
    }
    Ok(ends)
}

#[tactic(auto, using(crate::proofs::Opening::openers))]
fn openers_of(alloc: Global, control: &Control) -> Result<List<u32>, AllocError>
    requires { length control.now.statements.now < 2 ^ 32 }
    ensures { IfOk result (λ openers. p.AreOpeners control.now.statements.now openers) }
{
    let ends = block_ends(alloc, control)?;
    first_endings(alloc, ends.as_slice())
}

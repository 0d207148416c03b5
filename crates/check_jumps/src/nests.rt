//! How DOs and block IFs nest: the intervals that they make, and the statements at which they don't nest.
ghost use Rattle.std.specs.Prelude.{◌≡◌, ◌-◌, ◌<◌, ◌^◌, length, IsTrue, IfOk};
ghost use Rattle.f77_flow.specs.Labels as l;
ghost use Rattle.f77_flow.specs.Blocks as b;
ghost use Rattle.check_jumps.specs.Telling.{IsChoice};
ghost use Rattle.check_jumps.specs.Parts as p;
ghost use Rattle.check_jumps.specs.Nests as n;

use crate::intervals::{Intervals, first_endings};
use crate::parts::{Parts, is_block};
use f77_flow::Control;
use f77_tree::{List, Stmt};
use std::alloc::{AllocError, Global};

/// The ELSEs, ranges, arms and spans of some statements.
pub struct Nests<'a> {
    pub parts: Parts<'a>,
    pub elses: List<u32>,
    pub ranges: Intervals,
    pub arms: Intervals,
    pub spans: Intervals,
}

// The last statement of the DO at d, or d where it has no range.
fn range_end(control: &Control, d: usize) -> u32
    requires within { d < length control.now.statements.now }
    requires small { length control.now.statements.now < 2 ^ 32 }
    ensures { IsChoice (IsTrue (l.has_range control.now.statements.now d)) (l.last_of control.now.statements.now d) d result }
{
    let last = control.last(d);
    if (last as usize) < control.statements.len() {
        return last;
    }
    d as u32
}

fn ranges_of(alloc: Global, control: &Control) -> Result<List<u32>, AllocError>
    requires { length control.now.statements.now < 2 ^ 32 }
    ensures { IfOk result (λ ends. n.AreRanges control.now.statements.now ends) }
{
    let mut ends = List::new(alloc);
    for k in 0..control.statements.len() {
        ends.push(range_end(control, k))?;
    }
    Ok(ends)
}

// The last statement of the arm that begins at h, or h where there is none.
fn arm_last(parts: &Parts, h: usize) -> u32
    requires within { h < length parts.now.control.statements.now }
    requires small { length parts.now.control.statements.now < 2 ^ 32 }
    ensures { IsChoice (p.BeginsArm parts.now.control.statements.now h) (b.arm_end parts.now.control.statements.now h - 1) h result }
{
    if parts.begins_arm(h) {
        return parts.control.arm_end(h) - 1;
    }
    h as u32
}

fn arms_of(alloc: Global, parts: &Parts) -> Result<List<u32>, AllocError>
    requires { length parts.now.control.statements.now < 2 ^ 32 }
    ensures { IfOk result (λ ends. n.AreArms parts.now.control.statements.now ends) }
{
    let mut ends = List::new(alloc);
    for k in 0..parts.control.statements.len() {
        ends.push(arm_last(parts, k))?;
    }
    Ok(ends)
}

// The END IF of the block IF whose ELSE stands at h, or h where there is none.
fn else_end(parts: &Parts, h: usize) -> u32
    requires within { h < length parts.now.control.statements.now }
    requires small { length parts.now.control.statements.now < 2 ^ 32 }
    ensures { IsChoice (p.IsElsePart parts.now.control.statements.now h) (b.end_if parts.now.control.statements.now h) h result }
{
    if parts.is_else_part(h) {
        return parts.control.end_if(h);
    }
    h as u32
}

fn else_ends(alloc: Global, parts: &Parts) -> Result<List<u32>, AllocError>
    requires { length parts.now.control.statements.now < 2 ^ 32 }
    ensures { IfOk result (λ ends. n.AreElses parts.now.control.statements.now ends) }
{
    let mut ends = List::new(alloc);
    for k in 0..parts.control.statements.len() {
        ends.push(else_end(parts, k))?;
    }
    Ok(ends)
}

#[tactic(auto, using(crate::proofs::Spanning::elses))]
fn elses_of(alloc: Global, parts: &Parts) -> Result<List<u32>, AllocError>
    requires { length parts.now.control.statements.now < 2 ^ 32 }
    ensures { IfOk result (λ elses. n.AreFirstElses parts.now.control.statements.now elses) }
{
    let ends = else_ends(alloc, parts)?;
    first_endings(alloc, ends.as_slice())
}

// The last statement of the DO at k, or the END IF of the block IF at k, or k.
fn span_end(control: &Control, k: usize) -> u32
    requires within { k < length control.now.statements.now }
    requires small { length control.now.statements.now < 2 ^ 32 }
    ensures { n.IsSpanEnd control.now.statements.now k result }
{
    if is_block(control, k) {
        return control.end_if(k);
    }
    range_end(control, k)
}

fn spans_of(alloc: Global, control: &Control) -> Result<List<u32>, AllocError>
    requires { length control.now.statements.now < 2 ^ 32 }
    ensures { IfOk result (λ ends. n.AreSpans control.now.statements.now ends) }
{
    let mut ends = List::new(alloc);
    for k in 0..control.statements.len() {
        ends.push(span_end(control, k))?;
    }
    Ok(ends)
}

fn ranges(alloc: Global, control: &Control) -> Result<Intervals, AllocError>
    requires { length control.now.statements.now < 2 ^ 32 }
    ensures { IfOk result (λ intervals. n.AreRanges control.now.statements.now intervals.ends) }
{
    let ends = ranges_of(alloc, control)?;
    Intervals::new(alloc, ends)
}

fn arms(alloc: Global, parts: &Parts) -> Result<Intervals, AllocError>
    requires { length parts.now.control.statements.now < 2 ^ 32 }
    ensures { IfOk result (λ intervals. n.AreArms parts.now.control.statements.now intervals.ends) }
{
    let ends = arms_of(alloc, parts)?;
    Intervals::new(alloc, ends)
}

fn spans(alloc: Global, control: &Control) -> Result<Intervals, AllocError>
    requires { length control.now.statements.now < 2 ^ 32 }
    ensures { IfOk result (λ intervals. n.AreSpans control.now.statements.now intervals.ends) }
{
    let ends = spans_of(alloc, control)?;
    Intervals::new(alloc, ends)
}

// A call of its own, so that who drops it doesn't open its tables.
impl Drop for Nests<'_> {
    fn drop(self) {
        let Nests {
            parts,
            elses,
            ranges,
            arms,
            spans,
        } = self;
    }
}

impl<'a> Nests<'a> {
    /// How these statements nest.
    pub fn new(alloc: Global, statements: &'a [Stmt]) -> Result<Nests<'a>, AllocError>
        requires { length statements.now < 2 ^ 32 }
        ensures same { IfOk result (λ nests. nests.parts.control.statements.now ≡ statements.now) }
        ensures right { IfOk result (λ nests. n.AreNests nests) }
    {
        let parts = Parts::new(alloc, statements)?;
        Nests::of(alloc, parts)
    }

    fn of(alloc: Global, parts: Parts<'a>) -> Result<Nests<'a>, AllocError>
        requires { length parts.control.statements.now < 2 ^ 32 }
        ensures same { IfOk result (λ nests. nests.parts ≡ parts.entry) }
        ensures right { IfOk result (λ nests. n.AreNests nests) }
    {
        let elses = elses_of(alloc, &parts)?;
        let ranges = ranges(alloc, &parts.control)?;
        let arms = arms(alloc, &parts)?;
        let spans = spans(alloc, &parts.control)?;
        Ok(Nests {
            parts,
            elses,
            ranges,
            arms,
            spans,
        })
    }
}

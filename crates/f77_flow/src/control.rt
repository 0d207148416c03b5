//! Where control goes from each statement, looked up.
ghost use Rattle.std.specs.Prelude.{◌≡◌, ◌<◌, ◌≤◌, ◌^◌, length, IfOk};
ghost use Rattle.f77_flow.specs.Labels as l;
ghost use Rattle.f77_flow.specs.Blocks as b;
ghost use Rattle.f77_flow.specs.Tables as t;
ghost use Rattle.f77_flow.specs.Next as n;

use crate::blocks::{Branches, branches_of};
use crate::labels::{Labels, lasts_of, targets_of};
use crate::loops::{Ends, Loop, ends_of, loops_of};
use f77_tree::{List, Stmt};
use std::alloc::{AllocError, Global};

/// Where control goes from each of some statements. They are numbered from 0, and their number stands for none.
pub struct Control<'a> {
    pub statements: &'a [Stmt],
    targets: Labels,
    branches: Branches,
    lasts: List<u32>,
    ends: Ends,
    ghost right: { t.IsControl statements.now targets branches lasts ends },
}

// A call of its own, so that who drops it doesn't open its tables.
impl Drop for Control<'_> {
    fn drop(self) {
        let Control {
            statements,
            targets,
            branches,
            lasts,
            ends,
        } = self;
    }
}

impl<'a> Control<'a> {
    /// Where control goes from each of these statements.
    pub fn new(alloc: Global, statements: &'a [Stmt]) -> Result<Control<'a>, AllocError>
        requires { length statements.now < 2 ^ 32 }
        ensures { IfOk result (λ control. control.statements.now ≡ statements.now) }
    {
        let lasts = lasts_of(alloc, statements)?;
        let ends = ends_of(alloc, lasts.as_slice())?;
        Ok(Control {
            statements,
            targets: targets_of(alloc, statements)?,
            branches: branches_of(alloc, statements)?,
            lasts,
            ends,
        })
    }

    /// Where a jump to the label goes.
    #[tactic(auto, using(crate::proofs::Bounds::bounds))]
    pub fn target(&self, label: u32) -> u32
        ensures value { result ≡ l.target self.now.statements.now label }
        ensures within { result ≤ length self.now.statements.now }
    {
        self.targets.number(label)
    }

    /// What begins below statement k, where no DO ends.
    #[tactic(auto, using(crate::proofs::Bounds::bounds))]
    pub fn below(&self, k: usize) -> u32
        requires { k < length self.now.statements.now }
        ensures value { result ≡ b.below self.now.statements.now k }
        ensures within { result ≤ length self.now.statements.now }
    {
        self.branches.below.as_slice()[k]
    }

    /// Where a false condition at statement k goes.
    #[tactic(auto, using(crate::proofs::Bounds::bounds))]
    pub fn otherwise(&self, k: usize) -> u32
        requires { k < length self.now.statements.now }
        ensures value { result ≡ b.otherwise self.now.statements.now k }
        ensures within { result ≤ length self.now.statements.now }
    {
        self.branches.otherwise.as_slice()[k]
    }

    /// With what a run begins.
    pub fn first(&self) -> u32
        ensures { result ≡ b.first self.now.statements.now }
    {
        self.branches.first
    }

    /// The END IF of the block IF that statement k begins, or has a part of.
    pub fn end_if(&self, k: usize) -> u32
        requires { k < length self.now.statements.now }
        ensures { result ≡ b.end_if self.now.statements.now k }
    {
        self.branches.ends.as_slice()[k]
    }

    /// Where the arm ends that statement k begins.
    pub fn arm_end(&self, k: usize) -> u32
        requires { k < length self.now.statements.now }
        ensures { result ≡ b.arm_end self.now.statements.now k }
    {
        self.branches.arms.as_slice()[k]
    }

    /// The last statement of the range of the DO at d.
    pub fn last(&self, d: usize) -> u32
        requires { d < length self.now.statements.now }
        ensures { result ≡ l.last_of self.now.statements.now d }
    {
        self.lasts.as_slice()[d]
    }

    /// The innermost DO that ends at statement k.
    pub fn innermost(&self, k: usize) -> u32
        requires { k < length self.now.statements.now }
        ensures { result ≡ t.innermost self.now.statements.now k }
    {
        self.ends.innermost.as_slice()[k]
    }

    /// The next DO around the one at d that ends where it does.
    pub fn outer(&self, d: usize) -> u32
        requires { d < length self.now.statements.now }
        ensures { result ≡ t.outer self.now.statements.now d }
    {
        self.ends.outer.as_slice()[d]
    }

    /// The loops in the order of their DO statements.
    pub fn loops(&self, alloc: Global) -> Result<List<Loop>, AllocError>
        requires { length self.now.statements.now < 2 ^ 32 }
        ensures { IfOk result (λ loops. loops ≡ n.loops self.now.statements.now) }
    {
        loops_of(alloc, self.lasts.as_slice())
    }
}

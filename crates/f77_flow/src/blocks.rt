//! Where control goes between the arms of block IFs, by a pass from the last statement to the first.
ghost use Rattle.std.specs.Prelude.{◌≡◌, ℕ, suc, ◌<◌, ◌^◌, List as Lists, [], ◌∷◌, length, IfOk, OnOk};
ghost use Rattle.f77_tree.specs.declared.unit.Stmt.{Stmt};
ghost use Rattle.f77_flow.specs.Kinds as kinds;
ghost use Rattle.f77_flow.specs.Progress as p;
ghost use Rattle.f77_flow.specs.Tables as t;

use crate::kinds::{Kind, kind_of};
use crate::table::filled;
use f77_tree::{List, Stmt};
use std::alloc::{AllocError, Global};

/// What begins first; and for each statement what begins below it where no DO ends, where a false condition at it goes, and where the
/// block IF and the arm end that it stands in or begins.
#[derive(Drop)]
pub struct Branches {
    pub first: u32,
    pub below: List<u32>,
    pub otherwise: List<u32>,
    pub ends: List<u32>,
    pub arms: List<u32>,
}

// A block IF that is open: its END IF, its next part, and where a false condition above goes.
#[derive(Clone, Copy, Drop)]
struct Block {
    end: u32,
    part: u32,
    test: u32,
}

// The block IFs that are open, the innermost last; what begins where control comes from above; and the number that stands for none.
#[derive(Drop)]
struct Seen {
    blocks: List<Block>,
    coming: u32,
    none: u32,
}

impl Seen {
    fn new(alloc: Global, none: u32) -> Seen
        ensures { p.HasSeen result none [] }
    {
        Seen {
            blocks: List::new(alloc),
            coming: none,
            none,
        }
    }

    // The innermost block IF that is open.
    fn block(&self) -> Block
        ensures { result ≡ p.block_at self.now 0 }
    {
        match self.blocks.as_slice().last() {
            Some(block) => *block,
            None => Block {
                end: self.none,
                part: self.none,
                test: self.none,
            },
        }
    }

    // A statement that is a part of no block IF.
    fn see_other(&mut self, k: u32)
        ensures { (s : Stmt) (ss : Lists Stmt) → kinds.IsOther (kinds.kind s) → p.HasSeen self.old (suc k) ss → p.HasSeen self.new k (s ∷ ss) }
    {
        self.coming = k;
    }

    // Leaves the innermost block IF, and gives its END IF, where control now goes from above.
    fn close(&mut self) -> u32
        ensures end { result ≡ (p.block_at self.old 0).end }
        ensures coming { self.new.coming ≡ result }
        ensures none { self.new.none ≡ self.old.none }
        ensures blocks { (level : ℕ) → p.block_at self.new level ≡ p.block_at self.old (suc level) }
    {
        let end = self.block().end;
        self.blocks.pop();
        self.coming = end;
        end
    }

    // Enters a block IF.
    fn open(&mut self, end: u32, part: u32, test: u32) -> Result<(), AllocError>
        ensures coming { self.new.coming ≡ self.old.coming }
        ensures none { self.new.none ≡ self.old.none }
        ensures first { OnOk result (p.block_at self.new 0 ≡ record { end = end; part = part; test = test }) }
        ensures blocks { OnOk result ((level : ℕ) → p.block_at self.new (suc level) ≡ p.block_at self.old level) }
    {
        self.blocks.push(Block { end, part, test })
    }

    fn see_end(&mut self, k: u32) -> Result<(), AllocError>
        ensures { OnOk result ((s : Stmt) (ss : Lists Stmt) → kinds.kind s ≡ Kind.EndIf → p.HasSeen self.old (suc k) ss → p.HasSeen self.new k (s ∷ ss)) }
    {
        self.coming = k;
        self.open(k, k, k)
    }

    fn see_block(&mut self, k: u32)
        ensures { (s : Stmt) (ss : Lists Stmt) → kinds.kind s ≡ Kind.BlockIf → p.HasSeen self.old (suc k) ss → p.HasSeen self.new k (s ∷ ss) }
    {
        self.blocks.pop();
        self.coming = k;
    }

    fn see_else_if(&mut self, k: u32) -> Result<(), AllocError>
        ensures { OnOk result ((s : Stmt) (ss : Lists Stmt) → kinds.kind s ≡ Kind.ElseIf → p.HasSeen self.old (suc k) ss → p.HasSeen self.new k (s ∷ ss)) }
    {
        let end = self.close();
        self.open(end, k, k)
    }

    fn see_else(&mut self, k: u32) -> Result<(), AllocError>
        ensures { OnOk result ((s : Stmt) (ss : Lists Stmt) → kinds.kind s ≡ Kind.Else → p.HasSeen self.old (suc k) ss → p.HasSeen self.new k (s ∷ ss)) }
    {
        let arm = self.coming;
        let end = self.close();
        self.open(end, k, arm)
    }

    // Takes statement k before those that were seen.
    fn see(&mut self, kind: Kind, k: u32) -> Result<(), AllocError>
        ensures { OnOk result ((s : Stmt) (ss : Lists Stmt) → kinds.kind s ≡ kind → p.HasSeen self.old (suc k) ss → p.HasSeen self.new k (s ∷ ss)) }
    {
        match kind {
            Kind::Declaration => Ok(()),
            Kind::BlockIf => {
                self.see_block(k);
                Ok(())
            }
            Kind::ElseIf => self.see_else_if(k),
            Kind::Else => self.see_else(k),
            Kind::EndIf => self.see_end(k),
            Kind::Do(_) | Kind::Plain => {
                self.see_other(k);
                Ok(())
            }
        }
    }
}

/// Where control goes between the arms of block IFs.
pub fn branches_of(alloc: Global, statements: &[Stmt]) -> Result<Branches, AllocError>
    requires { length statements.now < 2 ^ 32 }
    ensures { IfOk result (λ branches. t.AreBranches statements.now branches) }
{
    let none = statements.len() as u32;
    let mut below = filled(alloc, none, statements.len())?;
    let mut otherwise = filled(alloc, none, statements.len())?;
    let mut ends = filled(alloc, none, statements.len())?;
    let mut arms = filled(alloc, none, statements.len())?;
    let mut seen = Seen::new(alloc, none);
    let mut k = statements.len();
    'place: while k > 0 {
        k -= 1;
        let block = seen.block();
        below.set(k, seen.coming);
        otherwise.set(k, block.test);
        ends.set(k, block.end);
        arms.set(k, block.part);
        seen.see(kind_of(&statements[k].form), k as u32)?;
    }
    let first = seen.coming;
    Ok(Branches {
        first,
        below,
        otherwise,
        ends,
        arms,
    })
}

//! Blocks.
ghost use Rattle.std.specs.Prelude.{◌≡◌, IfOk};
ghost use Rattle.ir_core.specs.declared.block.End.TheVariants as v;

use super::instruction::Instr;
use f77_tree::{Duplicate, List, Ty};
use std::alloc::{AllocError, Global};

/// How a visit of a block ends. `Branch` goes to its first block where the temporary isn't 0, else to its second. `Switch` goes to the
/// label that the temporary counts, from 1 on, and to its last block where there is none. `Return` gives back a temporary as a value of
/// the type, or nothing. `Exit` ends the run with a status.
pub enum End {
    Jump(u32),
    Branch(u32, u32, u32),
    Switch(u32, List<u32>, u32),
    Return(Option<(Ty, u32)>),
    Exit(u8),
}

/// Instructions with an end, and the number of the statement whose step a visit is.
pub struct Block {
    pub statement: u32,
    pub code: List<Instr>,
    pub end: End,
}

impl Drop for End {
    fn drop(self) {
        match self {
            End::Switch(_, labels, _) => drop(labels),
            End::Jump(_) | End::Branch(_, _, _) | End::Return(_) | End::Exit(_) => (),
        }
    }
}

impl Drop for Block {
    fn drop(self) {
        let Block {
            statement: _,
            code,
            end,
        } = self;
        drop(code);
        drop(end)
    }
}

fn copy_switch(alloc: Global, from: u32, labels: &List<u32>, other: u32) -> Result<End, AllocError>
    ensures { IfOk result (λ again. again ≡ v.Switch from labels.now other) }
{
    Ok(End::Switch(from, labels.duplicate(alloc)?, other))
}

impl End {
    /// The same end again.
    pub fn copy(&self, alloc: Global) -> Result<End, AllocError>
        ensures { IfOk result (λ again. again ≡ self.now) }
    {
        match self {
            End::Jump(to) => Ok(End::Jump(*to)),
            End::Branch(from, to, other) => Ok(End::Branch(*from, *to, *other)),
            End::Switch(from, labels, other) => copy_switch(alloc, *from, labels, *other),
            End::Return(value) => Ok(End::Return(*value)),
            End::Exit(status) => Ok(End::Exit(*status)),
        }
    }
}

impl Block {
    /// The same block again.
    pub fn copy(&self, alloc: Global) -> Result<Block, AllocError>
        ensures { IfOk result (λ again. again ≡ self.now) }
    {
        Ok(Block {
            statement: self.statement,
            code: self.code.duplicate(alloc)?,
            end: self.end.copy(alloc)?,
        })
    }
}

impl Duplicate for Block {
    fn duplicate(&self, alloc: Global) -> Result<Block, AllocError> {
        self.copy(alloc)
    }
}

//! What is built up while a unit is lowered.
ghost use Rattle.std.specs.Prelude.{◌≡◌, [], ◌∷◌, ◌++◌, ◌+◌, ◌<◌, IfOk, OnOk, OnErr};

use super::instruction::Instr;
use f77_tree::List;
use std::alloc::{AllocError, Global};

/// The instructions of a block so far, and what is known where the next stands: how many temporaries there are, how many of the unit's
/// sites have callees whose names stand before it, and for each dummy, by position, the temporaries of its array's lower bounds and of
/// its extents but the last.
pub struct Builder {
    pub code: List<Instr>,
    pub temps: u32,
    pub sites: u32,
    pub lowers: List<List<u32>>,
    pub extents: List<List<u32>>,
}

impl Drop for Builder {
    fn drop(self) {
        let Builder {
            code,
            temps: _,
            sites: _,
            lowers,
            extents,
        } = self;
        drop(code);
        drop(lowers);
        drop(extents)
    }
}

impl Builder {
    /// No instruction, temporary, site or dummy array.
    pub fn new(alloc: Global) -> Builder
        ensures code { result.code ≡ [] }
        ensures temps { result.temps ≡ 0 }
        ensures sites { result.sites ≡ 0 }
        ensures lowers { result.lowers ≡ [] }
        ensures extents { result.extents ≡ [] }
    {
        Builder {
            code: List::new(alloc),
            temps: 0,
            sites: 0,
            lowers: List::new(alloc),
            extents: List::new(alloc),
        }
    }

    /// A temporary that no instruction has yet.
    pub fn temporary(&mut self) -> u32
        requires { self.old.temps < 4294967295 }
        ensures number { result ≡ self.old.temps }
        ensures builder { self.new ≡ record (self.old) { temps = self.old.temps + 1 } }
    {
        let number = self.temps;
        self.temps += 1;
        number
    }

    /// Puts an instruction last. Where there was no memory, the builder is as it was.
    pub fn push(&mut self, instruction: Instr) -> Result<(), AllocError>
        ensures pushed { OnOk result (self.new ≡ record (self.old) { code = self.old.code ++ instruction ∷ [] }) }
        ensures kept { OnErr result (self.new ≡ self.old) }
    {
        self.code.push(instruction)
    }

    /// The instructions so far, for a block. Those of the next begin.
    pub fn take_code(&mut self, alloc: Global) -> List<Instr>
        ensures code { result ≡ self.old.code }
        ensures builder { self.new ≡ record (self.old) { code = [] } }
    {
        std::mem::replace(&mut self.code, List::new(alloc))
    }
}

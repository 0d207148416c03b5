//! An object: the code of one procedure, what has to be patched in it, and its area.
use f77_tree::{List, Name, Value};

/// The object of a procedure. Its area has `size` units of storage, and `initial` says what some of them hold at first.
pub struct Object {
    pub code: List<u32>,
    pub relocs: List<Reloc>,
    pub size: u32,
    pub initial: List<InitialRun>,
}

impl Drop for Object {
    fn drop(self) {
        let Object {
            code,
            relocs,
            size: _,
            initial,
        } = self;
        drop(code);
        drop(relocs);
        drop(initial)
    }
}

/// The pair of words of the code from `word` on, which is to reach the target.
pub struct Reloc {
    pub word: u32,
    pub target: Target,
}

impl Drop for Reloc {
    fn drop(self) {
        let Reloc { word: _, target } = self;
        drop(target)
    }
}

/// What a relocation reaches: a procedure, a unit of the object's own area, or a unit of a COMMON block.
#[derive(Drop)]
pub enum Target {
    Call(Name),
    Own(u32),
    Block(Name, u32),
}

/// Units of the area one after another that have one value at first: `count` of them, from the unit `from` on.
#[derive(Clone, Copy, Debug, Drop, PartialEq, Eq)]
pub struct InitialRun {
    pub from: u32,
    pub count: u32,
    pub value: Value,
}

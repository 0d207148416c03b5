//! Instructions.
ghost use Rattle.std.specs.Prelude.{◌≡◌, IfOk};
ghost use Rattle.ir_core.specs.declared.instruction.Instr.TheVariants as v;

use f77_tree::{Duplicate, Name, Ty};
use std::alloc::{AllocError, Global};

/// Where a spot begins: at what a dummy is associated with, by its position, or at a storage unit of the local area or of a COMMON block.
pub enum Base {
    Dummy(u32),
    Local(u32),
    Common(Name, u32),
}

/// Storage units from a base on, and the temporary that counts units from there, if there is one. The length of a dummy is that of its
/// actual argument, whatever is written here.
pub struct Spot {
    pub base: Base,
    pub length: u32,
    pub index: Option<u32>,
}

/// What is calculated with two words. Relations give 1 or 0. `Shift63` is the arithmetic shift right of the first word by 63.
#[derive(Clone, Copy, Debug, Drop, PartialEq, Eq)]
pub enum Calc {
    Add,
    Sub,
    Mul,
    Div,
    Rem,
    And,
    Or,
    Xor,
    Eq,
    Ne,
    Lt,
    Le,
    Gt,
    Ge,
    Shift63,
}

/// An actual argument without a location: its site, and its position there, counted from 0.
#[derive(Clone, Copy, Debug, Drop, PartialEq, Eq)]
pub struct Seat {
    pub site: u32,
    pub position: u32,
}

/// An instruction. In `Const`, `Copy`, `Load`, `Calc`, `Address`, `Fresh` and `Read` the first number is the temporary that is written; in
/// `Store` and `Fresh` the last is the one that is stored, as a value of the type. `Address` gives what there is from a spot on. `Fresh`
/// stores into the cell of an actual argument without a location, and gives its address. `Argument` sets an address, by its position, for
/// the next `Call`, which has a site and the temporary for its result, if that is wanted.
pub enum Instr {
    Const(u32, i64),
    Copy(u32, u32),
    Load(u32, Spot),
    Store(Spot, Ty, u32),
    Calc(u32, Calc, u32, u32),
    Address(u32, Spot),
    Fresh(u32, Seat, Ty, u32),
    Argument(u32, u32),
    Call(u32, Option<u32>),
    PrintInt(u32),
    PrintTruth(u32),
    PrintByte(u8),
    EndLine,
    Read(u32),
}

// Who drops an instruction makes one call, and doesn't open its variants.
impl Drop for Base {
    fn drop(self) {
        match self {
            Base::Common(block, _) => drop(block),
            Base::Dummy(_) | Base::Local(_) => (),
        }
    }
}

impl Drop for Spot {
    fn drop(self) {
        let Spot {
            base,
            length: _,
            index: _,
        } = self;
        drop(base)
    }
}

impl Drop for Instr {
    fn drop(self) {
        match self {
            Instr::Load(_, spot) | Instr::Store(spot, _, _) | Instr::Address(_, spot) => drop(spot),
            Instr::Const(_, _) | Instr::Copy(_, _) | Instr::Calc(_, _, _, _) => (),
            Instr::Fresh(_, _, _, _) | Instr::Argument(_, _) | Instr::Call(_, _) => (),
            Instr::PrintInt(_) | Instr::PrintTruth(_) | Instr::PrintByte(_) => (),
            Instr::EndLine | Instr::Read(_) => (),
        }
    }
}

impl Base {
    /// The same base again.
    pub fn copy(&self, alloc: Global) -> Result<Base, AllocError>
        ensures { IfOk result (λ again. again ≡ self.now) }
    {
        match self {
            Base::Dummy(position) => Ok(Base::Dummy(*position)),
            Base::Local(from) => Ok(Base::Local(*from)),
            Base::Common(block, from) => Ok(Base::Common(block.copy(alloc)?, *from)),
        }
    }
}

impl Spot {
    /// The same spot again.
    pub fn copy(&self, alloc: Global) -> Result<Spot, AllocError>
        ensures { IfOk result (λ again. again ≡ self.now) }
    {
        Ok(Spot {
            base: self.base.copy(alloc)?,
            length: self.length,
            index: self.index,
        })
    }
}

fn copy_load(alloc: Global, to: u32, spot: &Spot) -> Result<Instr, AllocError>
    ensures { IfOk result (λ again. again ≡ v.Load to spot.now) }
{
    Ok(Instr::Load(to, spot.copy(alloc)?))
}

fn copy_store(alloc: Global, spot: &Spot, ty: Ty, from: u32) -> Result<Instr, AllocError>
    ensures { IfOk result (λ again. again ≡ v.Store spot.now ty from) }
{
    Ok(Instr::Store(spot.copy(alloc)?, ty, from))
}

fn copy_address(alloc: Global, to: u32, spot: &Spot) -> Result<Instr, AllocError>
    ensures { IfOk result (λ again. again ≡ v.Address to spot.now) }
{
    Ok(Instr::Address(to, spot.copy(alloc)?))
}

impl Instr {
    /// The same instruction again.
    pub fn copy(&self, alloc: Global) -> Result<Instr, AllocError>
        ensures { IfOk result (λ again. again ≡ self.now) }
    {
        match self {
            Instr::Const(to, word) => Ok(Instr::Const(*to, *word)),
            Instr::Copy(to, from) => Ok(Instr::Copy(*to, *from)),
            Instr::Load(to, spot) => copy_load(alloc, *to, spot),
            Instr::Store(spot, ty, from) => copy_store(alloc, spot, *ty, *from),
            Instr::Calc(to, calc, left, right) => Ok(Instr::Calc(*to, *calc, *left, *right)),
            Instr::Address(to, spot) => copy_address(alloc, *to, spot),
            Instr::Fresh(to, seat, ty, from) => Ok(Instr::Fresh(*to, *seat, *ty, *from)),
            Instr::Argument(position, from) => Ok(Instr::Argument(*position, *from)),
            Instr::Call(site, to) => Ok(Instr::Call(*site, *to)),
            Instr::PrintInt(from) => Ok(Instr::PrintInt(*from)),
            Instr::PrintTruth(from) => Ok(Instr::PrintTruth(*from)),
            Instr::PrintByte(byte) => Ok(Instr::PrintByte(*byte)),
            Instr::EndLine => Ok(Instr::EndLine),
            Instr::Read(to) => Ok(Instr::Read(*to)),
        }
    }
}

impl Duplicate for Instr {
    fn duplicate(&self, alloc: Global) -> Result<Instr, AllocError> {
        self.copy(alloc)
    }
}

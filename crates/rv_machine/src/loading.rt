//! Machines from executable files.

ghost use Rattle.std.specs.Prelude.{◌≡◌, IfOk, Err, replicate};
ghost use Rattle.elf_file.specs.Found.{Found, Placed};
ghost use Rattle.elf_file.specs.Shape.{NoShape};
ghost use Rattle.rv_machine.specs.Kept.{state_of};
ghost use Rattle.rv_machine.specs.Start.{Loads};

use crate::kept::Machine;
use crate::outcome::Outcome;
use elf_file::{Parts, data_address, find_parts};
use std::alloc::{AllocError, Global};

// Where the code begins in a file, and in memory.
const CODE: usize = 4096;

const ENTRY: u64 = 65536;

/// Why no machine was made of a file.
#[derive(Clone, Copy, PartialEq, Eq, Debug, Drop)]
pub enum ElfRefused {
    /// The bytes are not of the shape of an executable file.
    Malformed,
    OutOfMemory,
}

impl Machine {
    /// The machine at the start of an executable file, with these integers still to be read.
    pub fn load(alloc: Global, elf: &[u8], input: Vec<i64>) -> Result<Machine, ElfRefused>
        ensures ok { IfOk result (λ m. Loads elf.now input.items (state_of m)) }
        ensures malformed { result ≡ Err ElfRefused.Malformed → NoShape elf.now }
    {
        match find_parts(alloc, elf) {
            Err(_) => Err(ElfRefused::OutOfMemory),
            Ok(None) => Err(ElfRefused::Malformed),
            Ok(Some(parts)) => match build(alloc, elf, parts, input) {
                Err(_) => Err(ElfRefused::OutOfMemory),
                Ok(machine) => Ok(machine),
            },
        }
    }
}

fn build(alloc: Global, elf: &[u8], parts: Parts, input: Vec<i64>) -> Result<Machine, AllocError>
    requires found { Found elf.now parts }
    requires placed { Placed elf.now parts }
    ensures { IfOk result (λ m. Loads elf.now input.items (state_of m)) }
{
    let first = elf.len() - parts.file;
    let code = Vec::from_slice(alloc, &elf[CODE..CODE + parts.code])?;
    let mut memory = Vec::from_slice(alloc, &elf[first..])?;
    memory.resize(parts.memory as usize, 0)?;
    Ok(Machine {
        pc: ENTRY,
        registers: blank_registers(),
        code,
        memory,
        data_at: data_address(parts.code as u64),
        input,
        next: 0,
        outcome: Outcome::Running,
    })
}

fn blank_registers() -> [u64; 32]
    ensures { result ≡ replicate 32 0 }
{
    [0; 32]
}

//! The parts of a file.

ghost use Rattle.std.specs.Prelude.{◌≡◌, ◌≢◌, ◌<◌, ◌≤◌, ◌+◌, ◌^◌, ◌↔◌, true, false, nat_eq, IfOk, IfNone, IfSome, IsTrue};
ghost use Rattle.std.specs.List.{list_all};
ghost use Rattle.elf_file.specs.Found.{Found, Placed};
ghost use Rattle.elf_file.specs.Shape.{NoShape, SizesFit, data_at};

use crate::numbers::read_le;
use crate::writing::{HEADERS, PAGE, data_address, gap_of, header_of};
use std::alloc::{AllocError, Global};

// Where the program headers have the sizes of the code and of the data in the file and in memory.
const CODE_SIZE: usize = 96;

const FILE_SIZE: usize = 152;

const MEMORY_SIZE: usize = 160;

// Addresses and sizes are below this.
const LIMIT: u64 = 1 << 63;

/// The sizes in bytes of a file's code, of its data in the file and of its data in memory.
/// The code stands from 4096 on, and the data end the file.
#[derive(Clone, Copy, Debug, Drop, PartialEq, Eq)]
pub struct Parts {
    pub code: usize,
    pub file: usize,
    pub memory: u64,
}

/// The parts of an executable file, or None where the bytes are not of its shape.
pub fn find_parts(alloc: Global, elf: &[u8]) -> Result<Option<Parts>, AllocError>
    ensures some { IfOk result (λ o. IfSome o (λ p. Found elf.now p)) }
    ensures placed { IfOk result (λ o. IfSome o (λ p. Placed elf.now p)) }
    ensures none { IfOk result (λ o. IfNone o (NoShape elf.now)) }
{
    if elf.len() < PAGE {
        return Ok(None);
    }
    let code = read_le(elf, CODE_SIZE, 8);
    let file = read_le(elf, FILE_SIZE, 8);
    let memory = read_le(elf, MEMORY_SIZE, 8);
    if !are_sound(code, file, memory) {
        return Ok(None);
    }
    let second = 4096 + code + gap_of(code);
    if elf.len() as u64 != second + file {
        return Ok(None);
    }
    let expected = header_of(alloc, code, file, memory)?;
    if !is_same(&elf[..HEADERS], expected.as_slice()) {
        return Ok(None);
    }
    if !is_zero(&elf[HEADERS..PAGE]) {
        return Ok(None);
    }
    let end = PAGE + code as usize;
    if !is_zero(&elf[end..second as usize]) {
        return Ok(None);
    }
    Ok(Some(Parts {
        code: code as usize,
        file: file as usize,
        memory,
    }))
}

fn are_sound(code: u64, file: u64, memory: u64) -> bool
    ensures { IsTrue result ↔ SizesFit code file memory }
{
    code % 4 == 0 && file % 8 == 0 && memory % 8 == 0 && file <= memory && is_low(code, memory)
}

fn is_low(code: u64, memory: u64) -> bool
    ensures { IsTrue result ↔ (data_at code + memory < 2 ^ 63) }
{
    code < LIMIT && data_address(code) < LIMIT && memory < LIMIT - data_address(code)
}

fn is_same(a: &[u8], b: &[u8]) -> bool
    ensures yes { result ≡ true → a.now ≡ b.now }
    ensures no { result ≡ false → a.now ≢ b.now }
{
    a == b
}

fn is_zero(bytes: &[u8]) -> bool
    ensures { result ≡ list_all (λ b. nat_eq b 0) bytes.now }
{
    bytes.iter().all(|b| *b == 0)
}

//! The executable of a program.
ghost use Rattle.std.specs.Prelude.{◌≡◌, ℕ, ℤ, List, ◌+◌, ◌*◌, ◌^◌, ◌<◌, ◌≤◌, length, IfOk, sum_by};
ghost use Rattle.indexmap.specs.IndexSet.{index_set_len};
ghost use Rattle.run_inputs.specs.Inputs.{AllWord64};
ghost use Rattle.thin_form.specs.Programs.{IsProgram, IsSmall, size_of};
ghost use Rattle.thin_code.specs.Layout.{names_of};
ghost use Rattle.thin_code.specs.Code.{file_of};
ghost use Rattle.thin_code.specs.Meaning.{Source};
ghost use Rattle.thin_code.specs.Agreement.{Agrees, EndsWithin, IsOrderly};
ghost use Rattle.thin_code.specs.Sizes.{steps_each, words_each};

use super::area::Area;
use super::names::names_of;
use super::statements::program_code;
use elf_file::{data_address, elf_bytes};
use std::alloc::{AllocError, Global};
use thin_form::Statement;

/// An executable that agrees with the program, and that has ended after 64 instructions and 32 for each byte of the statements.
pub fn program_file(alloc: Global, body: &[Statement]) -> Result<Vec<u8>, AllocError>
    requires program { IsProgram body.now }
    requires small { IsSmall body.now }
    ensures agrees { IfOk result (λ file. Agrees (Source body.now) (steps_each body.now) (words_each body.now) file.items) }
    // The run of a program is never stuck, and ends with status 0.
    ensures orderly { (input : List ℤ) → AllWord64 input → (n : ℕ) → IsOrderly (Source body.now input n) }
    ensures bound { IfOk result (λ file. EndsWithin file.items (64 + 32 * sum_by size_of body.now)) }
{
    linked(alloc, body)
}

// The code doesn't get longer or shorter by the address of the data, so it is made once to be measured.
fn linked(alloc: Global, body: &[Statement]) -> Result<Vec<u8>, AllocError>
    requires { IsSmall body.now }
    ensures { IfOk result (λ file. file.items ≡ file_of body.now) }
{
    let names = names_of(alloc, body)?;
    let memory = 8 * names.len() as u64;
    let unplaced = Area { names, address: 0 };
    let measured = program_code(alloc, &unplaced, body)?;
    let address = data_address(measured.len() as u64);
    let Area { names, .. } = unplaced;
    let area = Area { names, address };
    let code = program_code(alloc, &area, body)?;
    elf_bytes(alloc, code.as_slice(), &[], memory)
}

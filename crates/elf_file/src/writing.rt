//! Files from their parts.

ghost use Rattle.std.specs.Prelude.{◌≡◌, ℕ, ◌<◌, ◌≤◌, ◌+◌, ◌%◌, ◌^◌, ◌++◌, length, IfOk, OnOk};
ghost use Rattle.elf_file.specs.Shape.{data_at, file_bytes, gap, header, program_header, zeros};

use crate::numbers::push_le;
use std::alloc::{AllocError, Global};

/// The bytes of the file header and of both program headers.
pub(crate) const HEADERS: usize = 176;

/// The unit of offsets and addresses of segments, and where the code begins in a file.
pub(crate) const PAGE: usize = 4096;

const ENTRY: u64 = 65536;

const FILE_HEADER: [u8; 64] = [
    0x7f, b'E', b'L', b'F', 2, 1, 1, 0, 0, 0, 0, 0, 0, 0, 0, 0, // e_ident
    2, 0, // e_type
    243, 0, // e_machine
    1, 0, 0, 0, // e_version
    0, 0, 1, 0, 0, 0, 0, 0, // e_entry
    64, 0, 0, 0, 0, 0, 0, 0, // e_phoff
    0, 0, 0, 0, 0, 0, 0, 0, // e_shoff
    0, 0, 0, 0, // e_flags
    64, 0, // e_ehsize
    56, 0, // e_phentsize
    2, 0, // e_phnum
    0, 0, // e_shentsize
    0, 0, // e_shnum
    0, 0, // e_shstrndx
];

/// What a program header says of a segment; sizes are in bytes.
#[derive(Clone, Copy, Debug, Drop)]
pub struct Segment {
    pub flags: u64,
    pub offset: u64,
    pub address: u64,
    pub file: u64,
    pub memory: u64,
}

/// The file of a program with this code and with `memory` bytes of data, of which the first are `initial` and the others 0.
///
/// The layout is that of the ELF-64 object file format with two loadable segments.
pub fn elf_bytes(
    alloc: Global,
    code: &[u8],
    initial: &[u8],
    memory: u64,
) -> Result<Vec<u8>, AllocError>
    requires words { length code.now % 4 ≡ 0 }
    requires units { length initial.now % 8 ≡ 0 }
    requires memory_units { memory % 8 ≡ 0 }
    requires within { length initial.now ≤ memory }
    requires below { data_at (length code.now) + memory < 2 ^ 63 }
    ensures bytes { IfOk result (λ v. v.items ≡ file_bytes code.now initial.now memory) }
{
    let mut bytes = header_of(alloc, code.len() as u64, initial.len() as u64, memory)?;
    push_zeros(&mut bytes, PAGE - HEADERS)?;
    bytes.extend_from_slice(code)?;
    push_zeros(&mut bytes, gap_of(code.len() as u64) as usize)?;
    bytes.extend_from_slice(initial)?;
    Ok(bytes)
}

/// Where the data begin in memory behind this many bytes of code.
pub fn data_address(code: u64) -> u64
    requires { code < 2 ^ 63 }
    ensures address { result ≡ data_at code }
{
    ENTRY + code + gap_of(code)
}

// From the code's end to the next multiple of a page.
pub(crate) fn gap_of(code: u64) -> u64
    ensures { result ≡ gap code }
{
    (4096 - code % 4096) % 4096
}

// The headers of a file with parts of these sizes.
pub(crate) fn header_of(
    alloc: Global,
    code: u64,
    file: u64,
    memory: u64,
) -> Result<Vec<u8>, AllocError>
    requires { code < 2 ^ 63 }
    ensures { IfOk result (λ v. v.items ≡ header code file memory) }
{
    let mut bytes = Vec::from_slice(alloc, &FILE_HEADER)?;
    let text = Segment {
        flags: 5,
        offset: 4096,
        address: ENTRY,
        file: code,
        memory: code,
    };
    push_program_header(&mut bytes, text)?;
    let data = Segment {
        flags: 6,
        offset: 4096 + code + gap_of(code),
        address: data_address(code),
        file,
        memory,
    };
    push_program_header(&mut bytes, data)?;
    Ok(bytes)
}

fn push_program_header(bytes: &mut Vec<u8>, segment: Segment) -> Result<(), AllocError>
    ensures { OnOk result (bytes.new.items ≡ bytes.old.items ++ program_header segment) }
{
    push_le(bytes, 4, 1)?;
    push_le(bytes, 4, segment.flags)?;
    push_le(bytes, 8, segment.offset)?;
    push_le(bytes, 8, segment.address)?;
    push_le(bytes, 8, segment.address)?;
    push_le(bytes, 8, segment.file)?;
    push_le(bytes, 8, segment.memory)?;
    push_le(bytes, 8, 4096)?;
    Ok(())
}

fn push_zeros(bytes: &mut Vec<u8>, count: usize) -> Result<(), AllocError>
    ensures { OnOk result (bytes.new.items ≡ bytes.old.items ++ zeros count) }
{
    for _k in 0..count {
        bytes.push(0)?;
    }
    Ok(())
}

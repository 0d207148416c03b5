//! Numbers in bytes, the lowest byte first.

ghost use Rattle.std.specs.Prelude.{◌≡◌, ℕ, ◌<◌, ◌≤◌, ◌+◌, ◌^◌, ◌++◌, OnOk, length, slice_index};
ghost use Rattle.elf_file.specs.Numbers.{le, read};

use std::alloc::AllocError;

/// The number in `count` bytes from `at` on, the lowest byte first.
pub fn read_le(bytes: &[u8], at: usize, count: usize) -> u64
    requires room { at + count ≤ length bytes.now }
    requires count { count ≤ 8 }
    ensures value { result ≡ read count (slice_index bytes.now) at }
    ensures below { result < 256 ^ count }
{
    let mut value = 0u64;
    for k in (0..count).rev() {
        value = value * 256 + bytes[at + k] as u64;
    }
    value
}

/// Appends the low `count` bytes of a number, the lowest first.
pub fn push_le(bytes: &mut Vec<u8>, count: usize, value: u64) -> Result<(), AllocError>
    ensures { OnOk result (bytes.new.items ≡ bytes.old.items ++ le count value) }
{
    let mut rest = value;
    for _k in 0..count {
        bytes.push((rest % 256) as u8)?;
        rest /= 256;
    }
    Ok(())
}

//! Little-endian numbers in bytes.

ghost use Rattle.std.specs.Prelude.{◌≡◌, ℕ, ◌≤◌, ◌+◌, length, slice_index};
ghost use Rattle.rv_machine.specs.Memory.{write};

/// Puts the low `count` bytes of a value from `at` on.
pub fn write_le(bytes: &mut [u8], at: usize, count: usize, value: u64)
    requires { at + count ≤ length bytes.old }
    ensures { (x : ℕ) → slice_index bytes.new x ≡ write count at value (slice_index bytes.old) x }
{
    let mut rest = value;
    for k in 0..count {
        bytes[at + k] = (rest % 256) as u8;
        rest /= 256;
    }
}

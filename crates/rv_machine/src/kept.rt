//! What a machine keeps.

ghost use Rattle.std.specs.Prelude.{◌+◌, ◌^◌, ◌<◌, ◌≤◌, vec_len};

use crate::outcome::Outcome;

/// Registers, pc, two segments of bytes and the integers still to be read. The code lies at 65536, the data at `data_at`.
/// Register 0 reads as 0 whatever stands in the array.
#[derive(Drop)]
pub struct Machine {
    pub(crate) pc: u64,
    pub(crate) registers: [u64; 32],
    pub(crate) code: Vec<u8>,
    pub(crate) memory: Vec<u8>,
    pub(crate) data_at: u64,
    pub(crate) input: Vec<i64>,
    pub(crate) next: usize,
    pub(crate) outcome: Outcome,
    ghost apart: { 65536 + vec_len code ≤ data_at },
    ghost within: { data_at + vec_len memory < 2 ^ 63 },
    ghost read: { next ≤ vec_len input },
}

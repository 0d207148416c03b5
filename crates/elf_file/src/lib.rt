//! The executable file: a header, the code and the data, by the ELF-64 object file format.
#![tactic(auto)]

mod finding;
mod numbers;
#[cfg(test)]
mod tests;
mod writing;

pub use finding::{Parts, find_parts};
pub use numbers::{push_le, read_le};
pub use writing::{data_address, elf_bytes};

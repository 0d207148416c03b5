//! Tables of numbers of statements.
ghost use Rattle.std.specs.Prelude.{◌≡◌, ◌<◌, ◌≤◌, length, slice_index, IfOk};
ghost use Rattle.f77_flow.specs.Tables.{IsTable};

use f77_tree::List;
use std::alloc::{AllocError, Global};

/// A table of `count` numbers, each of which is `number`.
pub fn filled(alloc: Global, number: u32, count: usize) -> Result<List<u32>, AllocError>
    ensures { IfOk result (λ table. IsTable (λ _. number) count table) }
{
    Ok(List::from_vec(vec![in alloc; number; count]?))
}

/// The number that the table has at a place, or `none` behind its end.
pub fn number_at(table: &List<u32>, at: usize, none: u32) -> u32
    ensures within { at < length table.now → result ≡ slice_index table.now at }
    ensures behind { length table.now ≤ at → result ≡ none }
{
    match table.get(at) {
        Some(number) => *number,
        None => none,
    }
}

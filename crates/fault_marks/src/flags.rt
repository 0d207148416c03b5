//! The first fault of statements that are flagged.
ghost use Rattle.std.specs.Prelude.{◌≡◌, slice_get};
ghost use Rattle.fault_marks.specs.Earliest as e;
ghost use Rattle.fault_marks.specs.Places as p;

use super::marks::{Mark, first_of, mark_if};
use f77_tree::Stmt;

/// The flag of a statement, which is unset where it lacks.
fn flag_at(flags: &[bool], k: usize) -> bool
    ensures { result ≡ p.flag_of (slice_get flags.now k) }
{
    match flags.get(k) {
        Some(flag) => *flag,
        None => false,
    }
}

/// The first by line of the statements whose flag is set, as a fault of this number and limit. The flags stand in the order
/// of the statements, one for each.
pub fn earliest_flagged(statements: &[Stmt], flags: &[bool], number: u8, limit: u64) -> Option<Mark>
    ensures earliest { e.Earliest (p.Flagged statements.now flags.now number limit) result }
{
    let mut found = None;
    for (k, statement) in statements.iter().enumerate() {
        found = first_of(
            found,
            mark_if(flag_at(flags, k), statement.line, number, limit),
        );
    }
    found
}

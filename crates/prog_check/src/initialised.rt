//! Storage units of COMMON blocks that two units initialise.
ghost use Rattle.std.specs.Prelude.{◌≡◌, IfOk};
ghost use Rattle.std.specs.Option.{option_map};
ghost use Rattle.prog_check.specs.Initialised as n;
ghost use Rattle.call_cycles.specs.Marks as k;

use call_cycles::{ProgramMark, mark_at};
use check_common::{Again, initialised_again};
use f77_tree::Unit;
use std::alloc::{AllocError, Global};

fn marked(found: Option<Again>) -> Option<ProgramMark>
    ensures { result ≡ option_map n.mark_of found }
{
    match found {
        Some(again) => Some(mark_at(36, 0, Some(again.place), again.line)),
        None => None,
    }
}

/// The first statement of DATA that initialises a storage unit of a COMMON block which an earlier unit initialises too.
pub fn initial_fault(alloc: Global, units: &[Unit]) -> Result<Option<ProgramMark>, AllocError>
    ensures { IfOk result (λ mark. k.Earliest (n.IsInitialisedAgain units.now) mark) }
{
    let found = initialised_again(alloc, units)?;
    Ok(marked(found))
}

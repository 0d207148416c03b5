//! Programs from their texts.
ghost use Rattle.std.specs.Prelude.{IfOk};
ghost use Rattle.sound_units.specs.Accepted.{AllAreGood, NamesDiffer};
ghost use Rattle.prog_check.specs.ProgramFaults.{IsAccepted};

use f77_parse::read_law;
use f77_tree::{List, Refused, Unit};
use fixed_form::read_units;
use rn_draft::{accept, drafted};
use sound_texts::accepted_law;
use std::alloc::Global;

/// The trees of the program that a text is.
pub(crate) fn program_of(alloc: Global, text: &[u8]) -> Result<List<Unit>, Refused>
    ensures good { IfOk result (λ trees. AllAreGood trees) }
    ensures names { IfOk result (λ trees. NamesDiffer trees) }
    ensures accepted { IfOk result (λ trees. IsAccepted trees) }
{
    read_law();
    accepted_law();
    let units = read_units(alloc, text)?;
    let draft = drafted(alloc, units)?;
    accept(alloc, draft.as_slice())
}

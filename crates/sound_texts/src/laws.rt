//! Laws of accepted texts.
ghost use Rattle.sound_texts.specs.Laws.{AcceptedAreNeverStuck, AcceptedAreSound, DraftsDiffer, TreesAreTexts};

use f77_parse::{end_law, read_law};
use sound_units::programs_law;

/// The tree of a unit that was read and has no fault of its own is one that a text gives: END is its last statement, literals of
/// characters are items of PRINT, RETURN stands in subprograms, a logical IF has an action, and there are at most 63 dummy arguments.
pub fn trees_law()
    ensures text { TreesAreTexts }
{
    end_law();
}

/// The units of a draft have different names.
pub fn names_law()
    ensures differ { DraftsDiffer }
{}

/// The trees of an accepted draft of a text passed all checks, are what a text gives, and have different names. So their program is
/// never stuck.
pub fn accepted_law()
    ensures sound { AcceptedAreSound }
    ensures never_stuck { AcceptedAreNeverStuck }
{
    trees_law();
    read_law();
    programs_law();
}

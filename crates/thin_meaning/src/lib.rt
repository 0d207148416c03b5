//! Thin programs mean the same as the units that they are.
//!
//! The tree of a thin text is one main program without labels, declarations and lists, so its names are scalars of
//! INTEGER in the local area, each where it first appeared (`proofs/Naming`, `Places`); its statements are looked
//! up to the images of the thin ones (`Looked`), and control goes from each to the next (`Flowing`). A turn of the
//! unit and one of the thin program then come to the same from worlds with the same local cells (`Acting`,
//! `Running`). Their worlds aren't equal: the unit prints a record part by part, and its area has the unit's own
//! name, which is MAIN in a text that was read, but needn't be. That no place stands still at the greatest number
//! of 32 bits follows from fault 37 of a program's storage.
#![tactic(auto)]

ghost use Rattle.thin_meaning.specs.Laws.{TextsRunAlike, ThinTextsHaveUnits, UnitsRunAlike};

use f77_forms::forms_law;
use rn_draft::drafts_law;

/// A main program whose statements are thin does in each step what the thin statements do.
pub fn units_law()
    ensures alike { UnitsRunAlike }
{}

/// The trees of an accepted text that is thin are one such program, so the text's run is that of its thin statements: on every input
/// and for every number of steps.
pub fn texts_law()
    ensures unit { ThinTextsHaveUnits }
    ensures alike { TextsRunAlike }
{
    forms_law();
    drafts_law();
    units_law();
}

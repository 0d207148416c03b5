//! A text has one answer: at most one list of units and one first fault of reading, each unit at most one tree and one first
//! fault, a draft at most one list of trees and one first fault, and never both. Laws of the definitions alone.
#![tactic(auto)]

ghost use Rattle.std.specs.Prelude.{List, ℕ};
ghost use Rattle.f77_tree.specs.declared.fault.SourceFault.{SourceFault};
ghost use Rattle.f77_tree.specs.declared.unit.Unit.{Unit as SourceUnit};
ghost use Rattle.fixed_form.specs.declared.reader.UnitText.{UnitText};
ghost use Rattle.fixed_form.specs.Reading as reading;
ghost use Rattle.f77_parse.specs.Parsed as parsed;
ghost use Rattle.f77_parse.specs.UnitFaults as text;
ghost use Rattle.f77_check.specs.UnitFaults as checked;
ghost use Rattle.prog_check.specs.ProgramFaults as program;
ghost use Rattle.rn_draft.specs.Accepted as draft;
ghost use Rattle.one_answer.specs.Once.{AtMostOne, NeverBoth};

use f77_expr::lexes_law;
use f77_forms::forms_law;
use f77_parse::head_law;

/// The lines of a text are at most one list of units, and have at most one first fault. They never are units and have one.
pub fn reading_law()
    ensures units { (lines : List (List ℕ)) → AtMostOne (reading.Reads lines) }
    ensures fault { (lines : List (List ℕ)) → AtMostOne (λ (fault : SourceFault). reading.IsFirstFault fault lines) }
    ensures never_both { (lines : List (List ℕ)) → NeverBoth (reading.Reads lines) (λ (fault : SourceFault). reading.IsFirstFault fault lines) }
{
    forms_law();
    head_law();
}

/// A unit has at most one tree, and at most one first fault of its statements. Where no statement shows a fault it has none.
pub fn unit_law()
    ensures tree { (u : UnitText) → AtMostOne (parsed.IsUnit u) }
    ensures fault { (u : UnitText) → AtMostOne (λ (fault : SourceFault). text.IsUnitFault fault u) }
    ensures never_both { (u : UnitText) (fault : SourceFault) → parsed.IsFaultless u → text.IsUnitFault fault u → ⊥ }
{
    forms_law();
    lexes_law();
}

/// The checks of a unit have at most one first fault, and none where the unit is sound.
pub fn checks_law()
    ensures fault { (u : SourceUnit) → AtMostOne (λ (fault : SourceFault). checked.IsUnitFault fault u) }
    ensures never_both { (u : SourceUnit) (fault : SourceFault) → checked.IsSound u → checked.IsUnitFault fault u → ⊥ }
{}

/// The checks of a program have at most one first fault, and none where the program is accepted.
pub fn program_law()
    ensures fault { (units : List SourceUnit) → AtMostOne (λ (fault : SourceFault). program.IsProgramFault fault units) }
    ensures never_both { (units : List SourceUnit) (fault : SourceFault) → program.IsAccepted units → program.IsProgramFault fault units → ⊥ }
{}

/// A draft is accepted with at most one list of trees, and has at most one first fault. It never is accepted and has one.
pub fn draft_law()
    ensures trees { (units : List UnitText) → AtMostOne (draft.Accepted units) }
    ensures fault { (units : List UnitText) → AtMostOne (λ (fault : SourceFault). draft.IsFirstFault fault units) }
    ensures never_both { (units : List UnitText) → NeverBoth (draft.Accepted units) (λ (fault : SourceFault). draft.IsFirstFault fault units) }
{
    unit_law();
    checks_law();
    program_law();
}

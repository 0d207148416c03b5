//! Laws of units and their texts.
ghost use Rattle.std.specs.Prelude.{◌≡◌, ℕ, List, codes};
ghost use Rattle.std.specs.List.{All};
ghost use Rattle.f77_tree.specs.declared.form.Form.{Form};
ghost use Rattle.f77_tree.specs.declared.form.Form.TheVariants.{End};
ghost use Rattle.fixed_form.specs.Reading.{Reads};
ghost use Rattle.fixed_form.specs.declared.reader.UnitText.{UnitText};
ghost use Rattle.f77_forms.specs.Forms.{HasForm};
ghost use Rattle.f77_parse.specs.HeadNames.{IsNamedByHead, GivesItsName};
ghost use Rattle.f77_parse.specs.Statements.{EndsUnit, IsShortText};

use f77_forms::forms_law;

/// The text END has no other form than END.
pub fn end_law()
    ensures end { (form : Form) → HasForm (codes "END") form → form ≡ End }
{}

/// Each unit that is read ends by END, and its statements have texts of twenty lines at most.
pub fn read_law()
    ensures ends { (lines : List (List ℕ)) → (units : List UnitText) → Reads lines units → All EndsUnit units }
    ensures short { (lines : List (List ℕ)) → (units : List UnitText) → Reads lines units → All (λ u. All IsShortText u.statements) units }
{}

/// The name of each unit that is read is the name in the head that its first statement has, and in that of its tree; MAIN
/// where its first statement is no head.
pub fn head_law()
    ensures named { (lines : List (List ℕ)) → (units : List UnitText) → Reads lines units → All IsNamedByHead units }
    ensures tree { (lines : List (List ℕ)) → (units : List UnitText) → Reads lines units → All GivesItsName units }
{
    forms_law();
}

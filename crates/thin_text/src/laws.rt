//! Laws of thin programs.
ghost use Rattle.std.specs.Prelude.{◌≤◌, ℕ, List, length, sum_by};
ghost use Rattle.std.specs.List.{All};
ghost use Rattle.fixed_form.specs.declared.reader.UnitText.{UnitText};
ghost use Rattle.f77_parse.specs.Limits.{CountTokens};
ghost use Rattle.f77_parse.specs.Statements.{IsShortText};
ghost use Rattle.thin_form.specs.declared.statement.Statement.{Statement};
ghost use Rattle.thin_form.specs.Programs.{size_of, IsShort};
ghost use Rattle.thin_text.specs.Thin as t;

/// Thin statements have no more bytes than their texts, and are no more than the tokens of their unit.
pub fn sizes_law()
    ensures size { (units : List UnitText) → (body : List Statement) → t.IsThin units body → sum_by size_of body ≤ t.text_bytes units }
    ensures short { (units : List UnitText) → (body : List Statement) → t.IsThin units body → All (λ u. All IsShortText u.statements) units → All IsShort body }
    ensures few { (units : List UnitText) → (body : List Statement) → (h : t.IsThin units body) → (n : ℕ) → CountTokens h.unit.statements n → length body ≤ n }
{}

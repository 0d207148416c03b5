//! Laws of drafts.
ghost use Rattle.std.specs.Prelude.{◌≡◌, [], ◌∷◌, List};
ghost use Rattle.fixed_form.specs.declared.reader.UnitText.{UnitText};
ghost use Rattle.f77_tree.specs.declared.unit.Unit.{Unit};
ghost use Rattle.rn_draft.specs.Accepted.{Accepted};
ghost use Rattle.rn_draft.specs.Drafts.{drafted};

/// A unit alone is its own draft, and no units are no program.
pub fn drafts_law()
    ensures one { (u : UnitText) → drafted (u ∷ []) ≡ u ∷ [] }
    ensures none { (trees : List Unit) → Accepted [] trees → ⊥ }
{}

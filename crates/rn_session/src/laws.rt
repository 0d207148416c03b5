//! An input has one answer.
ghost use Rattle.std.specs.Prelude.{ℕ, List};
ghost use Rattle.f77_tree.specs.declared.fault.SourceFault.{SourceFault};
ghost use Rattle.one_answer.specs.Once.{AtMostOne};
ghost use Rattle.rn_session.specs.Exact.{HasFault, IsProgramText};

use one_answer::{draft_law, reading_law};

/// An input has at most one fault, and none where it is a program.
pub fn answers_law()
    ensures fault { (limit : ℕ) (bytes : List ℕ) → AtMostOne (HasFault limit bytes) }
    ensures never_both { (limit : ℕ) (bytes : List ℕ) (fault : SourceFault) → IsProgramText limit bytes → HasFault limit bytes fault → ⊥ }
{
    reading_law();
    draft_law();
}

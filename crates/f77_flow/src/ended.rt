//! What begins behind a statement, through the advances of the DOs that end there.
ghost use Rattle.std.specs.Prelude.{◌≡◌, ℕ, ◌<◌, ◌∷◌, [], length, OnOk};
ghost use Rattle.f77_flow.specs.Graph as g;
ghost use Rattle.f77_flow.specs.Tables as t;
ghost use Rattle.f77_flow.specs.Adding as a;

use crate::control::Control;
use f77_tree::List;
use std::alloc::AllocError;

/// Adds what begins behind statement k where it doesn't jump.
pub fn push_after(control: &Control, k: usize, all: &mut List<u32>) -> Result<(), AllocError>
    requires { k < length control.now.statements.now }
    ensures { OnOk result (a.Adds control.now.statements.now (g.after control.now.statements.now k ∷ []) all.old all.new) }
{
    push_ended(control, control.innermost(k), k, all)
}

/// Adds what begins from the advance of the DO `first` on, which is the innermost of the first m statements that ends at `last`; or,
/// where there is none, below `last`.
pub fn push_ended(
    control: &Control,
    first: u32,
    last: usize,
    all: &mut List<u32>,
) -> Result<(), AllocError>
    requires { last < length control.now.statements.now }
    ensures { OnOk result ((m : ℕ) → first ≡ t.inner_in control.now.statements.now last m → a.Adds control.now.statements.now (g.advance_or control.now.statements.now (g.ending_in control.now.statements.now last m) last ∷ []) all.old all.new) }
{
    let mut d = first as usize;
    'turn: while d < control.statements.len() {
        all.push(control.below(d))?;
        d = control.outer(d) as usize;
    }
    all.push(control.below(last))
}

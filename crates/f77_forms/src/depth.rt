//! How deep parentheses stand in a whole text.
ghost use Rattle.std.specs.Prelude.{IfOk};
ghost use Rattle.std.specs.Bool.{MatchBool};
ghost use Rattle.f77_forms.specs.TooDeep as t;

use f77_expr::{lexes_law, tokens};
use f77_tree::{Place, Refused};
use std::alloc::{AllocError, Global};

/// Whether more than 100 parentheses stand in each other in a text, and nothing else explains it before that.
pub fn is_too_deep(alloc: Global, text: &[u8]) -> Result<bool, AllocError>
    ensures { IfOk result (λ deep. MatchBool deep (t.IsTooDeep text.now) (t.IsTooDeep text.now → ⊥)) }
{
    lexes_law();
    let nowhere = Place {
        unit: None,
        line: 0,
    };
    match tokens(alloc, text, &nowhere) {
        Ok(_) => Ok(false),
        Err(Refused::OutOfMemory) => Err(AllocError),
        Err(Refused::Fault(fault)) => {
            if fault.number == 11 {
                return Ok(true);
            }
            Ok(false)
        }
    }
}

//! EXTERNAL and INTRINSIC statements behind their words.
ghost use Rattle.std.specs.Prelude.{◌≤◌, true, IfOk, MatchOption};
ghost use Rattle.f77_expr.specs.Depth as d;
ghost use Rattle.form_parts.specs.Only as o;
ghost use Rattle.form_parts.specs.Parts as p;
ghost use Rattle.form_specification.specs.Specifications as q;

use f77_expr::Token;
use f77_tree::{List, Name};
use form_parts::{Part, name, whole};
use std::alloc::{AllocError, Global};

/// A name.
pub struct NamePart;

impl Part for NamePart {
    type Out = Name;

    ghost reads = { p.IsName };

    ghost slash = { true };

    fn read(alloc: Global, tokens: &[Token]) -> Result<Option<(Name, &[Token])>, AllocError> {
        let Some((name, rest)) = name(alloc, tokens)? else {
            return Ok(None);
        };
        Ok(Some((name, rest)))
    }
}

/// The names of EXTERNAL or INTRINSIC behind the word.
pub fn names(alloc: Global, tokens: &[Token]) -> Result<Option<List<Name>>, AllocError>
    requires { d.deepest tokens.now ≤ 100 }
    ensures { IfOk result (λ found. MatchOption found (o.Never q.AreNames tokens.now) (λ all. o.Sole q.AreNames tokens.now all)) }
{
    whole::<NamePart>(alloc, tokens)
}

//! PARAMETER statements behind their word.
ghost use Rattle.std.specs.Prelude.{◌≤◌, false, IfOk, MatchOption};
ghost use Rattle.f77_expr.specs.Depth as d;
ghost use Rattle.form_parts.specs.Only as o;
ghost use Rattle.form_specification.specs.Specifications as q;

use f77_expr::{Kind, Token};
use f77_tree::{Expr, List, Name};
use form_parts::{Part, eat, front, name, parenthesized};
use std::alloc::{AllocError, Global};

/// A name with the expression that it stands for.
pub struct ConstantPart;

impl Part for ConstantPart {
    type Out = (Name, Expr);

    ghost reads = { q.IsConstant };

    ghost slash = { false };

    fn read(
        alloc: Global,
        tokens: &[Token],
    ) -> Result<Option<((Name, Expr), &[Token])>, AllocError> {
        let Some((name, behind)) = name(alloc, tokens)? else {
            return Ok(None);
        };
        let Some(after) = eat(Kind::Equals, behind) else {
            return Ok(None);
        };
        let Some((value, rest)) = front(alloc, after)? else {
            return Ok(None);
        };
        Ok(Some(((name, value), rest)))
    }
}

/// The constants of PARAMETER behind the word.
pub fn parameter(alloc: Global, tokens: &[Token]) -> Result<Option<List<(Name, Expr)>>, AllocError>
    requires { d.deepest tokens.now ≤ 100 }
    ensures { IfOk result (λ found. MatchOption found (o.Never q.IsParameter tokens.now) (λ all. o.Sole q.IsParameter tokens.now all)) }
{
    let Some((all, rest)) = parenthesized::<ConstantPart>(alloc, tokens)? else {
        return Ok(None);
    };
    if rest.is_empty() {
        Ok(Some(all))
    } else {
        Ok(None)
    }
}

//! The tokens of a part of a statement, and tokens that are one expression.
ghost use Rattle.std.specs.Prelude.{◌≤◌, IfOk, MatchOption};
ghost use Rattle.f77_expr.specs.Depth as d;
ghost use Rattle.form_parts.specs.Answers as a;
ghost use Rattle.form_parts.specs.Parts as p;
ghost use Rattle.form_parts.specs.Only as o;

use f77_expr::{Token, tokens};
use f77_tree::{Expr, List, Place, Refused};
use std::alloc::{AllocError, Global};

/// The tokens of a text, if it is a list of tokens in which at most 100 parentheses stand in each other.
pub fn tokens_of(alloc: Global, text: &[u8]) -> Result<Option<List<Token>>, AllocError>
    ensures { IfOk result (λ found. MatchOption found (o.Never a.AreTokens text.now) (λ ts. o.Sole a.AreTokens text.now ts)) }
{
    let nowhere = Place {
        unit: None,
        line: 0,
    };
    match tokens(alloc, text, &nowhere) {
        Ok(all) => Ok(Some(all)),
        Err(Refused::Fault(_)) => Ok(None),
        Err(Refused::OutOfMemory) => Err(AllocError),
    }
}

/// The expression that all the tokens are.
pub fn whole_expression(alloc: Global, tokens: &[Token]) -> Result<Option<Expr>, AllocError>
    requires { d.deepest tokens.now ≤ 100 }
    ensures { IfOk result (λ found. MatchOption found (o.Never p.IsExpression tokens.now) (λ x. o.Sole p.IsExpression tokens.now x)) }
{
    let nowhere = Place {
        unit: None,
        line: 0,
    };
    match f77_expr::whole_expression(alloc, tokens, &nowhere) {
        Ok(found) => Ok(found),
        Err(Refused::Fault(_)) => Ok(None),
        Err(Refused::OutOfMemory) => Err(AllocError),
    }
}

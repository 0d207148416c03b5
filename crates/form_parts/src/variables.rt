//! Variables, arrays and array elements.
ghost use Rattle.std.specs.Prelude.{◌≤◌, true, false, IfOk, MatchOption};
ghost use Rattle.f77_expr.specs.Depth as d;
ghost use Rattle.f77_expr.specs.Grammar as g;
ghost use Rattle.form_parts.specs.Parts as p;

use super::part_lists::{Part, parenthesized};
use super::reading::{front, name};
use f77_expr::Token;
use f77_tree::Expr;
use std::alloc::{AllocError, Global};

/// An expression.
pub struct ExpressionPart;

/// A name of a variable or an array, or an array element.
pub struct VariablePart;

impl Part for ExpressionPart {
    type Out = Expr;

    ghost reads = { g.ReadsExpression };

    ghost slash = { false };

    fn read(alloc: Global, tokens: &[Token]) -> Result<Option<(Expr, &[Token])>, AllocError> {
        let Some((x, rest)) = front(alloc, tokens)? else {
            return Ok(None);
        };
        Ok(Some((x, rest)))
    }
}

impl Part for VariablePart {
    type Out = Expr;

    ghost reads = { p.IsVariable };

    ghost slash = { true };

    fn read(alloc: Global, tokens: &[Token]) -> Result<Option<(Expr, &[Token])>, AllocError> {
        let Some((name, behind)) = name(alloc, tokens)? else {
            return Ok(None);
        };
        let Some((subscripts, rest)) = parenthesized::<ExpressionPart>(alloc, behind)? else {
            return Ok(Some((Expr::Scalar(name), behind)));
        };
        Ok(Some((Expr::Apply(name, subscripts), rest)))
    }
}

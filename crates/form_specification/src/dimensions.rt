//! Declarators: names with optional bounds.
ghost use Rattle.std.specs.Prelude.{◌≤◌, true, false, IfOk, MatchOption};
ghost use Rattle.f77_expr.specs.Depth as d;
ghost use Rattle.form_specification.specs.Declarators as b;
ghost use Rattle.form_parts.specs.Only as o;

use f77_expr::{Kind, Token};
use f77_tree::{Declarator, Expr, List};
use form_parts::{Part, eat, front, name, parenthesized, whole};
use std::alloc::{AllocError, Global};

/// The bounds of one dimension.
pub struct BoundPart;

/// A declarator.
pub struct DeclaratorPart;

/// An upper bound, which is `None` where `*` stands for it.
fn upper(alloc: Global, tokens: &[Token]) -> Result<Option<(Option<Expr>, &[Token])>, AllocError>
    requires { d.deepest tokens.now ≤ 100 }
    ensures shallow { IfOk result (λ found. MatchOption found (Unit {0}) (λ x. d.deepest x.1.now ≤ 100)) }
    ensures upper { IfOk result (λ found. MatchOption found (b.NoUpper tokens.now) (λ x. b.OnlyUpper tokens.now x.0 x.1.now)) }
{
    if let Some(rest) = eat(Kind::Star, tokens) {
        return Ok(Some((None, rest)));
    }
    let Some((x, rest)) = front(alloc, tokens)? else {
        return Ok(None);
    };
    Ok(Some((Some(x), rest)))
}

impl Part for BoundPart {
    type Out = (Option<Expr>, Option<Expr>);

    ghost reads = { b.IsBound };

    ghost slash = { false };

    fn read(
        alloc: Global,
        tokens: &[Token],
    ) -> Result<Option<((Option<Expr>, Option<Expr>), &[Token])>, AllocError> {
        let Some((first, behind)) = upper(alloc, tokens)? else {
            return Ok(None);
        };
        let Some(after) = eat(Kind::Colon, behind) else {
            return Ok(Some(((None, first), behind)));
        };
        let Some(low) = first else {
            return Ok(None);
        };
        let Some((high, rest)) = upper(alloc, after)? else {
            return Ok(None);
        };
        Ok(Some(((Some(low), high), rest)))
    }
}

/// The bounds of 1 to 7 dimensions in parentheses.
fn bounds(
    alloc: Global,
    tokens: &[Token],
) -> Result<Option<(List<(Option<Expr>, Option<Expr>)>, &[Token])>, AllocError>
    requires { d.deepest tokens.now ≤ 100 }
    ensures shallow { IfOk result (λ found. MatchOption found (Unit {0}) (λ x. d.deepest x.1.now ≤ 100)) }
    ensures bounds { IfOk result (λ found. MatchOption found (o.NoFront b.AreBounds tokens.now) (λ x. o.OnlyFront b.AreBounds tokens.now x.0 x.1.now)) }
{
    let Some((all, rest)) = parenthesized::<BoundPart>(alloc, tokens)? else {
        return Ok(None);
    };
    if all.len() <= 7 {
        Ok(Some((all, rest)))
    } else {
        Ok(None)
    }
}

impl Part for DeclaratorPart {
    type Out = Declarator;

    ghost reads = { b.IsDeclarator };

    ghost slash = { true };

    fn read(alloc: Global, tokens: &[Token]) -> Result<Option<(Declarator, &[Token])>, AllocError> {
        let Some((name, behind)) = name(alloc, tokens)? else {
            return Ok(None);
        };
        let Some((bounds, rest)) = bounds(alloc, behind)? else {
            let bounds = List::new(alloc);
            return Ok(Some((Declarator { name, bounds }, behind)));
        };
        Ok(Some((Declarator { name, bounds }, rest)))
    }
}

/// The declarators of INTEGER and LOGICAL behind the word.
pub fn declarators(alloc: Global, tokens: &[Token]) -> Result<Option<List<Declarator>>, AllocError>
    requires { d.deepest tokens.now ≤ 100 }
    ensures { IfOk result (λ found. MatchOption found (o.Never b.AreDeclarators tokens.now) (λ all. o.Sole b.AreDeclarators tokens.now all)) }
{
    whole::<DeclaratorPart>(alloc, tokens)
}

/// The declarators of DIMENSION behind the word, which all have bounds.
pub fn arrays(alloc: Global, tokens: &[Token]) -> Result<Option<List<Declarator>>, AllocError>
    requires { d.deepest tokens.now ≤ 100 }
    ensures { IfOk result (λ found. MatchOption found (o.Never b.AreArrays tokens.now) (λ all. o.Sole b.AreArrays tokens.now all)) }
{
    let Some(all) = whole::<DeclaratorPart>(alloc, tokens)? else {
        return Ok(None);
    };
    if all.as_slice().iter().all(|d| !d.bounds.is_empty()) {
        Ok(Some(all))
    } else {
        Ok(None)
    }
}

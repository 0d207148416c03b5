//! What is read from the front of tokens: a sign, a name, an expression.
ghost use Rattle.std.specs.Prelude.{◌≡◌, ◌≤◌, IfOk, MatchOption};
ghost use Rattle.f77_expr.specs.Depth as d;
ghost use Rattle.f77_expr.specs.Kinds.{IsNext};
ghost use Rattle.f77_expr.specs.Longest as s;
ghost use Rattle.form_parts.specs.Listed as g;
ghost use Rattle.form_parts.specs.Only as o;
ghost use Rattle.form_parts.specs.Parts as p;

use f77_expr::{Kind, Token, leading_expression, next};
use f77_tree::{Expr, List, Name, is_name};
use std::alloc::{AllocError, Global};

/// The tokens behind one of this kind, if it comes next.
pub fn eat(kind: Kind, tokens: &[Token]) -> Option<&[Token]>
    requires { d.deepest tokens.now ≤ 100 }
    ensures shallow { MatchOption result (Unit {0}) (λ rest. d.deepest rest.now ≤ 100) }
    ensures next { MatchOption result (o.NotNext tokens.now kind) (λ rest. IsNext tokens.now kind rest.now) }
{
    let (found, rest) = next(tokens)?;
    if found == kind { Some(rest) } else { None }
}

/// The tokens behind a comma, if one comes next.
pub fn behind_comma(tokens: &[Token]) -> &[Token]
    requires { d.deepest tokens.now ≤ 100 }
    ensures shallow { d.deepest result.now ≤ 100 }
    ensures behind { result.now ≡ g.behind_comma tokens.now }
{
    match tokens.split_first() {
        Some((token, rest)) if token.kind() == Kind::Comma => rest,
        _ => tokens,
    }
}

/// The longest expression at the front of the tokens, and the tokens behind it.
pub fn front(alloc: Global, tokens: &[Token]) -> Result<Option<(Expr, &[Token])>, AllocError>
    requires { d.deepest tokens.now ≤ 100 }
    ensures shallow { IfOk result (λ found. MatchOption found (Unit {0}) (λ x. d.deepest x.1.now ≤ 100)) }
    ensures longest { IfOk result (λ found. MatchOption found (s.NoneBegins tokens.now) (λ x. o.LongestFront tokens.now x.0 x.1.now)) }
{
    let Some((x, rest)) = leading_expression(alloc, tokens)? else {
        return Ok(None);
    };
    Ok(Some((x, rest)))
}

/// The name at the front of the tokens, and the tokens behind it.
pub fn name(alloc: Global, tokens: &[Token]) -> Result<Option<(Name, &[Token])>, AllocError>
    requires { d.deepest tokens.now ≤ 100 }
    ensures shallow { IfOk result (λ found. MatchOption found (Unit {0}) (λ x. d.deepest x.1.now ≤ 100)) }
    ensures name { IfOk result (λ found. MatchOption found (o.NoFront p.IsName tokens.now) (λ x. o.OnlyFront p.IsName tokens.now x.0 x.1.now)) }
{
    let Some((Token::Word(word), rest)) = tokens.split_first() else {
        return Ok(None);
    };
    if !is_name(word.as_slice()) {
        return Ok(None);
    }
    let bytes = List::from_slice(alloc, word.as_slice())?;
    Ok(Some((Name::from_list(bytes), rest)))
}

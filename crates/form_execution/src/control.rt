//! Statements that stand for themselves, conditions, and the parts of a DO.
ghost use Rattle.std.specs.Prelude.{◌≡◌, ◌≤◌, IfOk, MatchOption};
ghost use Rattle.f77_expr.specs.Depth as d;
ghost use Rattle.form_parts.specs.Answers as a;
ghost use Rattle.form_execution.specs.Control as c;
ghost use Rattle.form_parts.specs.Only as o;

use f77_expr::{Kind, Token};
use f77_tree::{Expr, Form, List, Name};
use form_kinds::{do_head, first_outside};
use form_parts::{ExpressionPart, eat, front, tokens_of, whole};
use std::alloc::{AllocError, Global};

/// The condition in parentheses at the front, and the tokens behind it.
pub fn condition(alloc: Global, tokens: &[Token]) -> Result<Option<(Expr, &[Token])>, AllocError>
    requires { d.deepest tokens.now ≤ 100 }
    ensures shallow { IfOk result (λ found. MatchOption found (Unit {0}) (λ x. d.deepest x.1.now ≤ 100)) }
    ensures condition { IfOk result (λ found. MatchOption found (o.NoFront c.IsCondition tokens.now) (λ x. o.OnlyFront c.IsCondition tokens.now x.0 x.1.now)) }
{
    let Some(inside) = eat(Kind::Open, tokens) else {
        return Ok(None);
    };
    let Some((test, behind)) = front(alloc, inside)? else {
        return Ok(None);
    };
    let Some(rest) = eat(Kind::Close, behind) else {
        return Ok(None);
    };
    Ok(Some((test, rest)))
}

fn is_then(tokens: &[Token]) -> bool
    ensures { result ≡ c.is_then tokens.now }
{
    match tokens {
        [Token::Word(word)] => word.as_slice() == b"THEN".as_slice(),
        _ => false,
    }
}

/// The condition of `(e)THEN`.
pub fn test(alloc: Global, tokens: &[Token]) -> Result<Option<Expr>, AllocError>
    requires { d.deepest tokens.now ≤ 100 }
    ensures { IfOk result (λ found. MatchOption found (o.Never c.IsTest tokens.now) (λ x. o.Sole c.IsTest tokens.now x)) }
{
    let Some((test, rest)) = condition(alloc, tokens)? else {
        return Ok(None);
    };
    if is_then(rest) {
        Ok(Some(test))
    } else {
        Ok(None)
    }
}

/// The first value, the last value and the step of a DO.
fn range(alloc: Global, tokens: &[Token]) -> Result<Option<(Expr, Expr, Option<Expr>)>, AllocError>
    requires { d.deepest tokens.now ≤ 100 }
    ensures { IfOk result (λ found. MatchOption found (o.Never c.IsRange tokens.now) (λ parts. o.Sole c.IsRange tokens.now parts)) }
{
    let Some(all) = whole::<ExpressionPart>(alloc, tokens)? else {
        return Ok(None);
    };
    match all.as_slice() {
        [from, to] => Ok(Some((from.copy(alloc)?, to.copy(alloc)?, None))),
        [from, to, step] => {
            Ok(Some((from.copy(alloc)?, to.copy(alloc)?, Some(step.copy(alloc)?))))
        }
        _ => Ok(None),
    }
}

/// The form of a DO.
pub fn do_form(alloc: Global, text: &[u8]) -> Result<Option<Form>, AllocError>
    ensures { IfOk result (λ found. MatchOption found (o.Never c.IsDoForm text.now) (λ form. o.Sole c.IsDoForm text.now form)) }
{
    let Some((before, behind)) = first_outside(b'=', text) else {
        return Ok(None);
    };
    let Some((label, name)) = do_head(before) else {
        return Ok(None);
    };
    let Some((from, to, step)) = range_in(alloc, behind)? else {
        return Ok(None);
    };
    let name = Name::from_list(List::from_slice(alloc, name)?);
    Ok(Some(Form::Do(label, name, from, to, step)))
}

fn range_in(alloc: Global, text: &[u8]) -> Result<Option<(Expr, Expr, Option<Expr>)>, AllocError>
    ensures { IfOk result (λ found. MatchOption found (o.Never (a.InTokens c.IsRange) text.now) (λ parts. o.Sole (a.InTokens c.IsRange) text.now parts)) }
{
    let Some(tokens) = tokens_of(alloc, text)? else {
        return Ok(None);
    };
    range(alloc, tokens.as_slice())
}

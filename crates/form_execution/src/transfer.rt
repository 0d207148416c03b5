//! Statements that go elsewhere.
ghost use Rattle.std.specs.Prelude.{◌≡◌, ◌≤◌, true, IfOk, MatchOption};
ghost use Rattle.f77_expr.specs.Depth as d;
ghost use Rattle.form_parts.specs.Only as o;
ghost use Rattle.form_execution.specs.Transfer as t;

use super::control::condition;
use f77_expr::Token;
use f77_tree::{Expr, Form, List};
use form_parts::{Part, behind_comma, parenthesized, whole, whole_expression};
use std::alloc::{AllocError, Global};

/// The label at the front of the tokens, and the tokens behind it.
fn label(tokens: &[Token]) -> Option<(u32, &[Token])>
    requires { d.deepest tokens.now ≤ 100 }
    ensures shallow { MatchOption result (Unit {0}) (λ x. d.deepest x.1.now ≤ 100) }
    ensures label { MatchOption result (o.NoFront t.IsLabel tokens.now) (λ x. o.OnlyFront t.IsLabel tokens.now x.0 x.1.now) }
{
    let Some((Token::Int(value, digits), rest)) = tokens.split_first() else {
        return None;
    };
    if *digits > 5 {
        return None;
    }
    if *value < 0 {
        return None;
    }
    if *value > 99_999 {
        return None;
    }
    Some((*value as u32, rest))
}

/// A label.
struct LabelPart;

impl Part for LabelPart {
    type Out = u32;

    ghost reads = { t.IsLabel };

    ghost slash = { true };

    fn read(_alloc: Global, tokens: &[Token]) -> Result<Option<(u32, &[Token])>, AllocError> {
        let Some((found, rest)) = label(tokens) else {
            return Ok(None);
        };
        Ok(Some((found, rest)))
    }
}

fn plain_go_to(tokens: &[Token]) -> Option<Form>
    requires { d.deepest tokens.now ≤ 100 }
    ensures { MatchOption result (o.Never t.IsPlainGoTo tokens.now) (λ form. o.Sole t.IsPlainGoTo tokens.now form) }
{
    let Some((found, rest)) = label(tokens) else {
        return None;
    };
    if rest.is_empty() {
        Some(Form::GoTo(found))
    } else {
        None
    }
}

fn computed_go_to(alloc: Global, tokens: &[Token]) -> Result<Option<Form>, AllocError>
    requires { d.deepest tokens.now ≤ 100 }
    ensures { IfOk result (λ found. MatchOption found (o.Never t.IsComputedGoTo tokens.now) (λ form. o.Sole t.IsComputedGoTo tokens.now form)) }
{
    let Some((labels, rest)) = parenthesized::<LabelPart>(alloc, tokens)? else {
        return Ok(None);
    };
    let Some(index) = whole_expression(alloc, behind_comma(rest))? else {
        return Ok(None);
    };
    Ok(Some(Form::ComputedGoTo(labels, index)))
}

/// The form of a GO TO by the tokens behind its word.
pub fn go_to(alloc: Global, tokens: &[Token]) -> Result<Option<Form>, AllocError>
    requires { d.deepest tokens.now ≤ 100 }
    ensures { IfOk result (λ found. MatchOption found (o.Never t.IsGoTo tokens.now) (λ form. o.Sole t.IsGoTo tokens.now form)) }
{
    if let Some(form) = plain_go_to(tokens) {
        return Ok(Some(form));
    }
    computed_go_to(alloc, tokens)
}

/// The form of an arithmetic IF by the tokens behind `IF`.
pub fn arithmetic_if(alloc: Global, tokens: &[Token]) -> Result<Option<Form>, AllocError>
    requires { d.deepest tokens.now ≤ 100 }
    ensures { IfOk result (λ found. MatchOption found (o.Never t.IsArithmeticIf tokens.now) (λ form. o.Sole t.IsArithmeticIf tokens.now form)) }
{
    let Some((value, rest)) = condition(alloc, tokens)? else {
        return Ok(None);
    };
    let Some(labels) = whole::<LabelPart>(alloc, rest)? else {
        return Ok(None);
    };
    let labels = labels.as_slice();
    if labels.len() != 3 {
        return Ok(None);
    }
    Ok(Some(Form::ArithmeticIf(value, labels[0], labels[1], labels[2])))
}

fn is_stop(tokens: &[Token]) -> bool
    ensures { result ≡ t.is_stop tokens.now }
{
    match tokens {
        [] => true,
        [Token::Int(_, digits)] => *digits <= 5,
        [Token::Text(_)] => true,
        _ => false,
    }
}

/// The form of a STOP by the tokens behind its word.
pub fn stop(tokens: &[Token]) -> Option<Form>
    ensures { MatchOption result (o.Never t.IsStop tokens.now) (λ form. o.Sole t.IsStop tokens.now form) }
{
    if is_stop(tokens) {
        Some(Form::Stop)
    } else {
        None
    }
}

fn call_of(alloc: Global, x: Expr) -> Option<Form>
    ensures { result ≡ t.call_of x }
{
    match x {
        Expr::Scalar(name) => Some(Form::Call(name, List::new(alloc))),
        Expr::Apply(name, actuals) => Some(Form::Call(name, actuals)),
        _ => None,
    }
}

/// The form of a CALL by the tokens behind its word.
pub fn call(alloc: Global, tokens: &[Token]) -> Result<Option<Form>, AllocError>
    requires { d.deepest tokens.now ≤ 100 }
    ensures { IfOk result (λ found. MatchOption found (o.Never t.IsCall tokens.now) (λ form. o.Sole t.IsCall tokens.now form)) }
{
    let Some(x) = whole_expression(alloc, tokens)? else {
        return Ok(None);
    };
    Ok(call_of(alloc, x))
}

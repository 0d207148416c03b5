//! PRINT and READ.
ghost use Rattle.std.specs.Prelude.{◌≤◌, false, IfOk, MatchOption};
ghost use Rattle.f77_expr.specs.Depth as d;
ghost use Rattle.form_execution.specs.InputOutput as i;
ghost use Rattle.form_parts.specs.Only as o;

use f77_expr::{Kind, Token};
use f77_tree::{Expr, Form, List};
use form_parts::{Part, VariablePart, eat, front, whole};
use std::alloc::{AllocError, Global};

/// An item of PRINT.
struct ItemPart;

impl Part for ItemPart {
    type Out = Expr;

    ghost reads = { i.IsItem };

    ghost slash = { false };

    fn read(alloc: Global, tokens: &[Token]) -> Result<Option<(Expr, &[Token])>, AllocError> {
        if let Some((Token::Text(bytes), rest)) = tokens.split_first() {
            let bytes = List::from_slice(alloc, bytes.as_slice())?;
            return Ok(Some((Expr::Text(bytes), rest)));
        }
        let Some((x, rest)) = front(alloc, tokens)? else {
            return Ok(None);
        };
        Ok(Some((x, rest)))
    }
}

/// The form of a PRINT by the tokens behind its word.
pub fn print(alloc: Global, tokens: &[Token]) -> Result<Option<Form>, AllocError>
    requires { d.deepest tokens.now ≤ 100 }
    ensures { IfOk result (λ found. MatchOption found (o.Never i.IsPrint tokens.now) (λ form. o.Sole i.IsPrint tokens.now form)) }
{
    let Some(behind) = eat(Kind::Star, tokens) else {
        return Ok(None);
    };
    if behind.is_empty() {
        return Ok(Some(Form::Print(List::new(alloc))));
    }
    let Some(rest) = eat(Kind::Comma, behind) else {
        return Ok(None);
    };
    let Some(items) = whole::<ItemPart>(alloc, rest)? else {
        return Ok(None);
    };
    Ok(Some(Form::Print(items)))
}

/// The form of a READ by the tokens behind its word.
pub fn read(alloc: Global, tokens: &[Token]) -> Result<Option<Form>, AllocError>
    requires { d.deepest tokens.now ≤ 100 }
    ensures { IfOk result (λ found. MatchOption found (o.Never i.IsRead tokens.now) (λ form. o.Sole i.IsRead tokens.now form)) }
{
    let Some(behind) = eat(Kind::Star, tokens) else {
        return Ok(None);
    };
    let Some(rest) = eat(Kind::Comma, behind) else {
        return Ok(None);
    };
    let Some(targets) = whole::<VariablePart>(alloc, rest)? else {
        return Ok(None);
    };
    Ok(Some(Form::Read(targets)))
}

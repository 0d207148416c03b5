//! The form of a statement.
ghost use Rattle.std.specs.Prelude.{◌≡◌, Some, IfOk, MatchOption};
ghost use Rattle.f77_tree.specs.declared.form.Form.TheVariants as v;
ghost use Rattle.form_parts.specs.Answers as a;
ghost use Rattle.form_execution.specs.Assignment as s;
ghost use Rattle.form_execution.specs.Control as c;
ghost use Rattle.f77_forms.specs.Forms as f;
ghost use Rattle.form_parts.specs.Only as o;
ghost use Rattle.form_parts.specs.Parts as p;
ghost use Rattle.form_execution.specs.Transfer as t;

use super::depth::is_too_deep;
use super::head_forms::head_form;
use super::word_forms::word_form;
use f77_tree::{Box, Expr, Form};
use fixed_form::behind_word;
use form_execution::{arithmetic_if, assignment, do_form, test};
use form_kinds::{StatementKind, if_parts, keyword_of, statement_kind};
use form_parts::{tokens_of, whole_expression};
use std::alloc::{AllocError, Global};

/// The form of a statement that begins with a word or is a head.
fn worded(alloc: Global, text: &[u8]) -> Result<Option<Form>, AllocError>
    ensures { IfOk result (λ found. MatchOption found (o.Never f.IsWorded text.now) (λ form. o.Sole f.IsWorded text.now form)) }
{
    if let Some(head) = head_form(alloc, text)? {
        return Ok(Some(head));
    }
    let Some(word) = keyword_of(text) else {
        return Ok(None);
    };
    let Some(tokens) = tokens_of(alloc, word.behind(text))? else {
        return Ok(None);
    };
    word_form(alloc, word, tokens.as_slice())
}

fn assignment_in(alloc: Global, text: &[u8]) -> Result<Option<Form>, AllocError>
    ensures { IfOk result (λ found. MatchOption found (o.Never (a.InTokens s.IsAssignment) text.now) (λ form. o.Sole (a.InTokens s.IsAssignment) text.now form)) }
{
    let Some(tokens) = tokens_of(alloc, text)? else {
        return Ok(None);
    };
    assignment(alloc, tokens.as_slice())
}

fn block_if(alloc: Global, text: &[u8]) -> Result<Option<Form>, AllocError>
    ensures { IfOk result (λ found. MatchOption found (o.Never (f.BehindIf (a.Made c.IsTest v.BlockIf)) text.now) (λ form. o.Sole (f.BehindIf (a.Made c.IsTest v.BlockIf)) text.now form)) }
{
    let Some(rest) = behind_word(text, b"IF".as_slice()) else {
        return Ok(None);
    };
    let Some(tokens) = tokens_of(alloc, rest)? else {
        return Ok(None);
    };
    let Some(x) = test(alloc, tokens.as_slice())? else {
        return Ok(None);
    };
    Ok(Some(Form::BlockIf(x)))
}

fn arithmetic_if_in(alloc: Global, text: &[u8]) -> Result<Option<Form>, AllocError>
    ensures { IfOk result (λ found. MatchOption found (o.Never (f.BehindIf t.IsArithmeticIf) text.now) (λ form. o.Sole (f.BehindIf t.IsArithmeticIf) text.now form)) }
{
    let Some(rest) = behind_word(text, b"IF".as_slice()) else {
        return Ok(None);
    };
    let Some(tokens) = tokens_of(alloc, rest)? else {
        return Ok(None);
    };
    arithmetic_if(alloc, tokens.as_slice())
}

/// The form of a statement of this kind, where it is no logical IF.
fn kind_form(alloc: Global, kind: StatementKind, text: &[u8]) -> Result<Option<Form>, AllocError>
    ensures { IfOk result (λ found. MatchOption found (o.Never (f.KindForm kind) text.now) (λ form. o.Sole (f.KindForm kind) text.now form)) }
{
    match kind {
        StatementKind::Assignment => assignment_in(alloc, text),
        StatementKind::Do => do_form(alloc, text),
        StatementKind::BlockIf => block_if(alloc, text),
        StatementKind::ArithmeticIf => arithmetic_if_in(alloc, text),
        StatementKind::LogicalIf => Ok(None),
        StatementKind::Worded => worded(alloc, text),
    }
}

fn plain_form(alloc: Global, text: &[u8]) -> Result<Option<Form>, AllocError>
    ensures { IfOk result (λ found. MatchOption found (o.Never f.HasPlainForm text.now) (λ form. o.Sole f.HasPlainForm text.now form)) }
{
    kind_form(alloc, statement_kind(text), text)
}

/// Whether a form may stand in a logical IF.
fn is_action(form: &Form) -> bool
    ensures { result ≡ f.is_action form.now }
{
    match form {
        Form::Assign(_, _) | Form::ArithmeticIf(_, _, _, _) => true,
        Form::GoTo(_) | Form::ComputedGoTo(_, _) | Form::Call(_, _) => true,
        Form::Continue | Form::Return | Form::Stop => true,
        Form::Print(_) | Form::Read(_) => true,
        _ => false,
    }
}

fn expression_in(alloc: Global, text: &[u8]) -> Result<Option<Expr>, AllocError>
    ensures { IfOk result (λ found. MatchOption found (o.Never (a.InTokens p.IsExpression) text.now) (λ x. o.Sole (a.InTokens p.IsExpression) text.now x)) }
{
    let Some(tokens) = tokens_of(alloc, text)? else {
        return Ok(None);
    };
    whole_expression(alloc, tokens.as_slice())
}

/// The form of a statement that may stand in a logical IF.
fn action(alloc: Global, text: &[u8]) -> Result<Option<Form>, AllocError>
    ensures { IfOk result (λ found. MatchOption found (o.Never f.HasAction text.now) (λ form. o.Sole f.HasAction text.now form)) }
{
    let Some(form) = plain_form(alloc, text)? else {
        return Ok(None);
    };
    if is_action(&form) {
        Ok(Some(form))
    } else {
        Ok(None)
    }
}

fn boxed(alloc: Global, form: Form) -> Result<Option<Box<Form>>, AllocError>
    ensures { IfOk result (λ found. found ≡ Some form) }
{
    Ok(Some(Box::new(alloc, form)?))
}

fn boxed_action(alloc: Global, text: &[u8]) -> Result<Option<Box<Form>>, AllocError>
    ensures { IfOk result (λ found. MatchOption found (o.Never f.HasAction text.now) (λ form. o.Sole f.HasAction text.now form)) }
{
    let Some(form) = action(alloc, text)? else {
        return Ok(None);
    };
    boxed(alloc, form)
}

/// A logical IF by the text of its condition, before a statement.
fn conditional(
    alloc: Global,
    condition: &[u8],
    inner: Box<Form>,
) -> Result<Option<Form>, AllocError>
    ensures { IfOk result (λ found. MatchOption found (o.Never (a.InTokens p.IsExpression) condition.now) (λ form. f.IsConditional condition.now inner form)) }
{
    match expression_in(alloc, condition)? {
        Some(test) => Ok(Some(Form::LogicalIf(test, inner))),
        None => Ok(None),
    }
}

fn logical_if(alloc: Global, text: &[u8]) -> Result<Option<Form>, AllocError>
    ensures { IfOk result (λ found. MatchOption found (o.Never f.IsLogicalIf text.now) (λ form. o.Sole f.IsLogicalIf text.now form)) }
{
    let Some((condition, statement)) = if_parts(text) else {
        return Ok(None);
    };
    let too_deep = is_too_deep(alloc, text)?;
    if too_deep {
        return Ok(None);
    }
    let Some(inner) = boxed_action(alloc, statement)? else {
        return Ok(None);
    };
    conditional(alloc, condition, inner)
}

/// The form of a statement with this text, if it has one. `END` has its form wherever it stands. No form is found where
/// more than 100 parentheses stand in each other.
pub fn form_of(alloc: Global, text: &[u8]) -> Result<Option<Form>, AllocError>
    ensures form { IfOk result (λ found. MatchOption found (o.Never f.HasForm text.now) (λ form. o.Sole f.HasForm text.now form)) }
{
    let kind = statement_kind(text);
    match kind {
        StatementKind::LogicalIf => logical_if(alloc, text),
        _ => kind_form(alloc, kind, text),
    }
}

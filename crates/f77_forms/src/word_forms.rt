//! The forms of statements that begin with a word, by the tokens behind it.
ghost use Rattle.std.specs.Prelude.{◌≤◌, IfOk, MatchOption};
ghost use Rattle.f77_tree.specs.declared.form.Form.TheVariants as v;
ghost use Rattle.f77_expr.specs.Depth as d;
ghost use Rattle.form_parts.specs.Answers as a;
ghost use Rattle.form_execution.specs.Control as c;
ghost use Rattle.form_specification.specs.DataForms as n;
ghost use Rattle.form_specification.specs.Declarators as b;
ghost use Rattle.f77_forms.specs.Forms as f;
ghost use Rattle.form_parts.specs.Only as o;
ghost use Rattle.form_specification.specs.Specifications as q;

use super::bare_forms::{continue_form, else_form, end, end_if, implicit_none, return_form};
use f77_expr::Token;
use f77_tree::{Form, Ty};
use form_execution::{call, go_to, print, read, stop, test};
use form_kinds::Keyword;
use form_specification::{arrays, common, data, declarators, implicit, names, parameter, save};
use std::alloc::{AllocError, Global};

fn typed(alloc: Global, ty: Ty, tokens: &[Token]) -> Result<Option<Form>, AllocError>
    requires { d.deepest tokens.now ≤ 100 }
    ensures { IfOk result (λ found. MatchOption found (o.Never (a.Made b.AreDeclarators (v.Typed ty)) tokens.now) (λ form. o.Sole (a.Made b.AreDeclarators (v.Typed ty)) tokens.now form)) }
{
    let Some(all) = declarators(alloc, tokens)? else {
        return Ok(None);
    };
    Ok(Some(Form::Typed(ty, all)))
}

fn dimension(alloc: Global, tokens: &[Token]) -> Result<Option<Form>, AllocError>
    requires { d.deepest tokens.now ≤ 100 }
    ensures { IfOk result (λ found. MatchOption found (o.Never (a.Made b.AreArrays v.Dimension) tokens.now) (λ form. o.Sole (a.Made b.AreArrays v.Dimension) tokens.now form)) }
{
    let Some(all) = arrays(alloc, tokens)? else {
        return Ok(None);
    };
    Ok(Some(Form::Dimension(all)))
}

fn implicit_form(alloc: Global, tokens: &[Token]) -> Result<Option<Form>, AllocError>
    requires { d.deepest tokens.now ≤ 100 }
    ensures { IfOk result (λ found. MatchOption found (o.Never (a.Made q.IsImplicit v.Implicit) tokens.now) (λ form. o.Sole (a.Made q.IsImplicit v.Implicit) tokens.now form)) }
{
    let Some(rules) = implicit(alloc, tokens)? else {
        return Ok(None);
    };
    Ok(Some(Form::Implicit(rules)))
}

fn common_form(alloc: Global, tokens: &[Token]) -> Result<Option<Form>, AllocError>
    requires { d.deepest tokens.now ≤ 100 }
    ensures { IfOk result (λ found. MatchOption found (o.Never (a.Made q.IsCommon v.Common) tokens.now) (λ form. o.Sole (a.Made q.IsCommon v.Common) tokens.now form)) }
{
    let Some(blocks) = common(alloc, tokens)? else {
        return Ok(None);
    };
    Ok(Some(Form::Common(blocks)))
}

fn parameter_form(alloc: Global, tokens: &[Token]) -> Result<Option<Form>, AllocError>
    requires { d.deepest tokens.now ≤ 100 }
    ensures { IfOk result (λ found. MatchOption found (o.Never (a.Made q.IsParameter v.Parameter) tokens.now) (λ form. o.Sole (a.Made q.IsParameter v.Parameter) tokens.now form)) }
{
    let Some(all) = parameter(alloc, tokens)? else {
        return Ok(None);
    };
    Ok(Some(Form::Parameter(all)))
}

fn external(alloc: Global, tokens: &[Token]) -> Result<Option<Form>, AllocError>
    requires { d.deepest tokens.now ≤ 100 }
    ensures { IfOk result (λ found. MatchOption found (o.Never (a.Made q.AreNames v.External) tokens.now) (λ form. o.Sole (a.Made q.AreNames v.External) tokens.now form)) }
{
    let Some(all) = names(alloc, tokens)? else {
        return Ok(None);
    };
    Ok(Some(Form::External(all)))
}

fn intrinsic(alloc: Global, tokens: &[Token]) -> Result<Option<Form>, AllocError>
    requires { d.deepest tokens.now ≤ 100 }
    ensures { IfOk result (λ found. MatchOption found (o.Never (a.Made q.AreNames v.Intrinsic) tokens.now) (λ form. o.Sole (a.Made q.AreNames v.Intrinsic) tokens.now form)) }
{
    let Some(all) = names(alloc, tokens)? else {
        return Ok(None);
    };
    Ok(Some(Form::Intrinsic(all)))
}

fn save_form(alloc: Global, tokens: &[Token]) -> Result<Option<Form>, AllocError>
    requires { d.deepest tokens.now ≤ 100 }
    ensures { IfOk result (λ found. MatchOption found (o.Never (a.Made q.IsSave f.save_of) tokens.now) (λ form. o.Sole (a.Made q.IsSave f.save_of) tokens.now form)) }
{
    let Some((saved, blocks)) = save(alloc, tokens)? else {
        return Ok(None);
    };
    Ok(Some(Form::Save(saved, blocks)))
}

fn data_form(alloc: Global, tokens: &[Token]) -> Result<Option<Form>, AllocError>
    requires { d.deepest tokens.now ≤ 100 }
    ensures { IfOk result (λ found. MatchOption found (o.Never (a.Made n.IsData v.DataRuns) tokens.now) (λ form. o.Sole (a.Made n.IsData v.DataRuns) tokens.now form)) }
{
    let Some(runs) = data(alloc, tokens)? else {
        return Ok(None);
    };
    Ok(Some(Form::DataRuns(runs)))
}

fn else_if(alloc: Global, tokens: &[Token]) -> Result<Option<Form>, AllocError>
    requires { d.deepest tokens.now ≤ 100 }
    ensures { IfOk result (λ found. MatchOption found (o.Never (a.Made c.IsTest v.ElseIf) tokens.now) (λ form. o.Sole (a.Made c.IsTest v.ElseIf) tokens.now form)) }
{
    let Some(x) = test(alloc, tokens)? else {
        return Ok(None);
    };
    Ok(Some(Form::ElseIf(x)))
}

/// The form of a statement by its word and the tokens behind it.
pub fn word_form(alloc: Global, word: Keyword, tokens: &[Token]) -> Result<Option<Form>, AllocError>
    requires { d.deepest tokens.now ≤ 100 }
    ensures { IfOk result (λ found. MatchOption found (o.Never (f.WordForm word) tokens.now) (λ form. o.Sole (f.WordForm word) tokens.now form)) }
{
    match word {
        Keyword::ImplicitNone => Ok(implicit_none(tokens)),
        Keyword::Implicit => implicit_form(alloc, tokens),
        Keyword::Integer => typed(alloc, Ty::Integer, tokens),
        Keyword::Logical => typed(alloc, Ty::Logical, tokens),
        Keyword::Dimension => dimension(alloc, tokens),
        Keyword::Common => common_form(alloc, tokens),
        Keyword::Parameter => parameter_form(alloc, tokens),
        Keyword::External => external(alloc, tokens),
        Keyword::Intrinsic => intrinsic(alloc, tokens),
        Keyword::Save => save_form(alloc, tokens),
        Keyword::Data => data_form(alloc, tokens),
        Keyword::ElseIf => else_if(alloc, tokens),
        Keyword::Else => Ok(else_form(tokens)),
        Keyword::EndIf => Ok(end_if(tokens)),
        Keyword::End => Ok(end(tokens)),
        Keyword::GoTo => go_to(alloc, tokens),
        Keyword::Continue => Ok(continue_form(tokens)),
        Keyword::Return => Ok(return_form(tokens)),
        Keyword::Stop => Ok(stop(tokens)),
        Keyword::Call => call(alloc, tokens),
        Keyword::Print => print(alloc, tokens),
        Keyword::Read => read(alloc, tokens),
    }
}

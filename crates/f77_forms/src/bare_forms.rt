//! Statements that are a word with nothing behind it. Each form is built where it is given back, since one that is
//! dropped on another way is dear to check.
ghost use Rattle.std.specs.Prelude.{MatchOption};
ghost use Rattle.f77_tree.specs.declared.form.Form.TheVariants as v;
ghost use Rattle.form_execution.specs.Control as c;
ghost use Rattle.form_parts.specs.Only as o;

use f77_expr::Token;
use f77_tree::Form;

/// The form of IMPLICIT NONE, if nothing stands behind the word.
pub fn implicit_none(tokens: &[Token]) -> Option<Form>
    ensures { MatchOption result (o.Never (c.IsBare v.ImplicitNone) tokens.now) (λ form. o.Sole (c.IsBare v.ImplicitNone) tokens.now form) }
{
    if tokens.is_empty() {
        Some(Form::ImplicitNone)
    } else {
        None
    }
}

/// The form of ELSE, if nothing stands behind the word.
pub fn else_form(tokens: &[Token]) -> Option<Form>
    ensures { MatchOption result (o.Never (c.IsBare v.Else) tokens.now) (λ form. o.Sole (c.IsBare v.Else) tokens.now form) }
{
    if tokens.is_empty() {
        Some(Form::Else)
    } else {
        None
    }
}

/// The form of END IF, if nothing stands behind the word.
pub fn end_if(tokens: &[Token]) -> Option<Form>
    ensures { MatchOption result (o.Never (c.IsBare v.EndIf) tokens.now) (λ form. o.Sole (c.IsBare v.EndIf) tokens.now form) }
{
    if tokens.is_empty() {
        Some(Form::EndIf)
    } else {
        None
    }
}

/// The form of END, if nothing stands behind the word.
pub fn end(tokens: &[Token]) -> Option<Form>
    ensures { MatchOption result (o.Never (c.IsBare v.End) tokens.now) (λ form. o.Sole (c.IsBare v.End) tokens.now form) }
{
    if tokens.is_empty() {
        Some(Form::End)
    } else {
        None
    }
}

/// The form of CONTINUE, if nothing stands behind the word.
pub fn continue_form(tokens: &[Token]) -> Option<Form>
    ensures { MatchOption result (o.Never (c.IsBare v.Continue) tokens.now) (λ form. o.Sole (c.IsBare v.Continue) tokens.now form) }
{
    if tokens.is_empty() {
        Some(Form::Continue)
    } else {
        None
    }
}

/// The form of RETURN, if nothing stands behind the word.
pub fn return_form(tokens: &[Token]) -> Option<Form>
    ensures { MatchOption result (o.Never (c.IsBare v.Return) tokens.now) (λ form. o.Sole (c.IsBare v.Return) tokens.now form) }
{
    if tokens.is_empty() {
        Some(Form::Return)
    } else {
        None
    }
}

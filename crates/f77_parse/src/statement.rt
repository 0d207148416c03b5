//! The faults of a statement in its place.
ghost use Rattle.std.specs.Prelude.{◌≡◌, ℕ, ◌≤◌, ◌<◌, ◌+◌, min, true, false, not, ◌&&◌, List as Lists, length, IfOk, MatchOption, IsTrue};
ghost use Rattle.std.specs.Bool.{MatchBool};
ghost use Rattle.f77_tree.specs.declared.form.Form.{Form as AnyForm};
ghost use Rattle.fixed_form.specs.declared.reader.Line.{Line as AnyLine};
ghost use Rattle.form_parts.specs.Answers as a;
ghost use Rattle.form_kinds.specs.Foreign.{IsForeign};
ghost use Rattle.f77_parse.specs.Context as c;
ghost use Rattle.fault_marks.specs.Earliest as e;
ghost use Rattle.f77_parse.specs.Limits as l;
ghost use Rattle.f77_parse.specs.Shown as h;
ghost use Rattle.f77_parse.specs.Statements as s;
ghost use Rattle.f77_parse.specs.UnitFaults as f;

use super::context::{Context, breaks_order};
use f77_expr::{lexes_law, tokens};
use f77_forms::{form_of, is_foreign};
use f77_tree::{Form, Place, Refused, TypeWord};
use fault_marks::{Mark, first_of, mark_if};
use fixed_form::Line;
use std::alloc::{AllocError, Global};

/// The most tokens of a unit.
pub const MOST_TOKENS: u32 = 20000;

/// The most dummies of a unit.
const MOST_DUMMIES: usize = 63;

/// A place for the faults of tokens, of which only the numbers are asked for.
fn nowhere() -> Place {
    Place {
        unit: None,
        line: 0,
    }
}

/// The fault among 10, 9 and 11 that the tokens of a text explain.
fn token_fault(alloc: Global, text: &[u8]) -> Result<Option<u8>, AllocError>
    ensures { IfOk result (λ found. h.IsOnly (f.TokenFault text.now) found) }
{
    lexes_law();
    match tokens(alloc, text, &nowhere()) {
        Ok(_) => Ok(None),
        Err(Refused::OutOfMemory) => Err(AllocError),
        Err(Refused::Fault(fault)) => {
            if fault.number == 6 {
                return Ok(None);
            }
            Ok(Some(fault.number))
        }
    }
}

/// Whether a form is END.
fn is_end(form: &Form) -> bool
    ensures { result ≡ h.is_end form.now }
{
    matches!(form, Form::End)
}

/// Whether a form is END before the last statement.
fn is_early_end(form: &Form, last: bool) -> bool
    ensures { result ≡ h.is_end form.now && not last }
{
    is_end(form) && !last
}

/// The form of a text in its place: END has one only as the last statement.
pub fn form_at(alloc: Global, text: &[u8], last: bool) -> Result<Option<Form>, AllocError>
    ensures { IfOk result (λ found. (behind : Lists AnyLine) → h.IsLast last behind → h.KnowsForm behind text.now found) }
{
    let Some(form) = form_of(alloc, text)? else {
        return Ok(None);
    };
    if is_early_end(&form, last) {
        return Ok(None);
    }
    Ok(Some(form))
}

/// The fault of a text that the tokens or the lack of a form explain.
fn explained(alloc: Global, text: &[u8], formed: bool) -> Result<Option<u8>, AllocError>
    ensures { IfOk result (λ found. (behind : Lists AnyLine) → h.IsFormed behind text.now formed → h.IsOnly (h.Explained behind text.now) found) }
{
    if let Some(number) = token_fault(alloc, text)? {
        return Ok(Some(number));
    }
    if formed {
        return Ok(None);
    }
    Ok(Some(if is_foreign(text) { 7 } else { 6 }))
}

/// The fault of a number at a line.
fn mark_at(line: u32, number: Option<u8>) -> Option<Mark>
    ensures { result ≡ h.mark_at line number }
{
    match number {
        Some(number) => mark_if(true, line, number, 0),
        None => None,
    }
}

/// Whether a form is a head with a type that is lacking.
fn is_foreign_head(form: &Form) -> bool
    ensures { result ≡ f.is_foreign_head form.now }
{
    match form {
        Form::Head(_, Some(word), _, _) => is_foreign_type(*word),
        _ => false,
    }
}

/// Whether a form is such a head and doesn't stand first.
fn is_late_foreign_head(context: Context, form: &Form) -> bool
    ensures { result ≡ f.is_foreign_head form.now && not context.first }
{
    is_foreign_head(form) && !context.first
}

fn is_foreign_type(word: TypeWord) -> bool
    ensures { result ≡ f.is_foreign_type word }
{
    match word {
        TypeWord::Real | TypeWord::DoublePrecision | TypeWord::Complex => true,
        TypeWord::Integer | TypeWord::Logical => false,
    }
}

/// Whether a form is a head with too many dummies.
fn passes_dummies(form: &Form) -> bool
    ensures { MatchBool result (l.PassesDummies form.now) (l.PassesDummies form.now → ⊥) }
{
    match form {
        Form::Head(_, _, _, dummies) => dummies.len() > MOST_DUMMIES,
        _ => false,
    }
}

/// The first fault that a form shows in its place.
fn form_mark(context: Context, line: u32, form: &Form) -> Option<Mark>
    ensures { (before : Lists AnyLine) → c.Knows before context → e.Earliest (h.FormShows context.kind before line form.now) result }
{
    let head = mark_if(is_late_foreign_head(context, form), line, 7, 0);
    let order = mark_if(breaks_order(context, form), line, 8, 0);
    let dummies = mark_if(passes_dummies(form), line, 37, MOST_DUMMIES as u64);
    first_of(head, first_of(order, dummies))
}

/// The same of a form that may lack.
fn optional_form_mark(context: Context, line: u32, form: &Option<Form>) -> Option<Mark>
    ensures { (before : Lists AnyLine) → c.Knows before context → e.Earliest (h.FormPart context.kind before line form.now) result }
{
    let Some(form) = form else {
        return None;
    };
    form_mark(context, line, form)
}

/// The first fault that a statement shows, whose form was asked for, and with which the tokens of the unit pass their
/// limit or don't.
pub fn statement_mark(
    alloc: Global,
    context: Context,
    line: &Line,
    form: &Option<Form>,
    passes: bool,
) -> Result<Option<Mark>, AllocError>
    ensures { IfOk result (λ found. (before behind : Lists AnyLine) → c.Knows before context → h.KnowsForm behind line.now.text form.now → h.KnowsPassing before line.now passes → e.Earliest (f.Shows context.kind before line.now behind) found) }
{
    let number = explained(alloc, line.text.as_slice(), form.is_some())?;
    let by_text = mark_at(line.line, number);
    let by_form = optional_form_mark(context, line.line, form);
    let by_tokens = mark_if(passes, line.line, 37, u64::from(MOST_TOKENS));
    Ok(first_of(by_text, first_of(by_form, by_tokens)))
}

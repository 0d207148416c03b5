//! Heads of units.
ghost use Rattle.std.specs.Prelude.{◌≡◌, ◌<◌, [], codes, length, IfOk, MatchOption};
ghost use Rattle.std.specs.Bool.{MatchBool};
ghost use Rattle.form_parts.specs.Only as o;
ghost use Rattle.f77_forms.specs.HeadForms as h;

use f77_tree::{Form, List, Name, TypeWord, UnitKind, is_name};
use fixed_form::{behind_word, word_run};
use std::alloc::{AllocError, Global};

fn name_of(alloc: Global, bytes: &[u8]) -> Result<Name, AllocError>
    ensures { IfOk result (λ name. name ≡ bytes.now) }
{
    Ok(Name::from_list(List::from_slice(alloc, bytes)?))
}

/// The name at the front, the byte behind it, and the text behind that.
fn front_name(text: &[u8]) -> Option<(&[u8], u8, &[u8])>
    ensures { MatchOption result (h.NoFrontName text.now) (λ x. h.IsFrontName text.now x.0.now x.1 x.2.now) }
{
    let (name, behind) = text.split_at(word_run(text));
    if !is_name(name) {
        return None;
    }
    let Some((mark, rest)) = behind.split_first() else {
        return None;
    };
    Some((name, *mark, rest))
}

/// The names, if nothing stands behind the closing parenthesis.
fn if_last(names: List<Name>, behind: &[u8]) -> Option<List<Name>>
    ensures { MatchOption result (0 < length behind.now) (λ all. (behind.now ≡ []) × (all ≡ names)) }
{
    if behind.is_empty() { Some(names) } else { None }
}

/// The names of a text that is names between commas and a closing parenthesis.
fn names_in(alloc: Global, text: &[u8]) -> Result<Option<List<Name>>, AllocError>
    ensures { IfOk result (λ found. MatchOption found (o.Never h.AreNamesIn text.now) (λ names. o.Sole h.AreNamesIn text.now names)) }
{
    let mut all = List::new(alloc);
    let mut rest = text;
    'name: while let Some((name, mark, after)) = front_name(rest) {
        all.push(name_of(alloc, name)?)?;
        if mark == b')' {
            return Ok(if_last(all, after));
        }
        if mark != b',' {
            return Ok(None);
        }
        rest = after;
    }
    Ok(None)
}

fn is_empty_list(text: &[u8]) -> bool
    ensures { MatchBool result (text.now ≡ codes "()") (text.now ≡ codes "()" → ⊥) }
{
    text == b"()".as_slice()
}

/// The dummies of a text that is a list of them in parentheses.
fn dummies(alloc: Global, text: &[u8]) -> Result<Option<List<Name>>, AllocError>
    ensures { IfOk result (λ found. MatchOption found (o.Never h.AreDummies text.now) (λ names. o.Sole h.AreDummies text.now names)) }
{
    if is_empty_list(text) {
        return Ok(Some(List::new(alloc)));
    }
    let Some(rest) = behind_word(text, b"(".as_slice()) else {
        return Ok(None);
    };
    names_in(alloc, rest)
}

/// The name and the dummies of a text that is a name with a list.
fn named_list(alloc: Global, text: &[u8]) -> Result<Option<(Name, List<Name>)>, AllocError>
    ensures { IfOk result (λ found. MatchOption found (o.Never h.IsNamedList text.now) (λ parts. o.Sole h.IsNamedList text.now parts)) }
{
    let (name, list) = text.split_at(word_run(text));
    if !is_name(name) {
        return Ok(None);
    }
    let Some(names) = dummies(alloc, list)? else {
        return Ok(None);
    };
    Ok(Some((name_of(alloc, name)?, names)))
}

fn program(alloc: Global, text: &[u8]) -> Result<Option<Form>, AllocError>
    ensures { IfOk result (λ found. MatchOption found (o.Never h.IsProgram text.now) (λ form. o.Sole h.IsProgram text.now form)) }
{
    let Some(name) = behind_word(text, b"PROGRAM".as_slice()) else {
        return Ok(None);
    };
    if !is_name(name) {
        return Ok(None);
    }
    Ok(Some(Form::Head(
        UnitKind::Main,
        None,
        name_of(alloc, name)?,
        List::new(alloc),
    )))
}

fn subroutine(alloc: Global, text: &[u8]) -> Result<Option<Form>, AllocError>
    ensures { IfOk result (λ found. MatchOption found (o.Never h.IsSubroutine text.now) (λ form. o.Sole h.IsSubroutine text.now form)) }
{
    let Some(rest) = behind_word(text, b"SUBROUTINE".as_slice()) else {
        return Ok(None);
    };
    if is_name(rest) {
        return Ok(Some(Form::Head(
            UnitKind::Subroutine,
            None,
            name_of(alloc, rest)?,
            List::new(alloc),
        )));
    }
    let Some((name, dummies)) = named_list(alloc, rest)? else {
        return Ok(None);
    };
    Ok(Some(Form::Head(UnitKind::Subroutine, None, name, dummies)))
}

fn type_at(first: u8) -> Option<TypeWord>
    ensures { result ≡ h.type_at first }
{
    match first {
        b'I' => Some(TypeWord::Integer),
        b'L' => Some(TypeWord::Logical),
        b'R' => Some(TypeWord::Real),
        b'D' => Some(TypeWord::DoublePrecision),
        b'C' => Some(TypeWord::Complex),
        _ => None,
    }
}

fn type_spelling(word: Option<TypeWord>) -> &'static [u8]
    ensures { result.now ≡ h.type_spelling word }
{
    match word {
        None => b"".as_slice(),
        Some(TypeWord::Integer) => b"INTEGER".as_slice(),
        Some(TypeWord::Logical) => b"LOGICAL".as_slice(),
        Some(TypeWord::Real) => b"REAL".as_slice(),
        Some(TypeWord::DoublePrecision) => b"DOUBLEPRECISION".as_slice(),
        Some(TypeWord::Complex) => b"COMPLEX".as_slice(),
    }
}

fn first_byte(text: &[u8]) -> u8
    ensures { result ≡ h.first_byte text.now }
{
    match text.first() {
        Some(first) => *first,
        None => 0,
    }
}

fn function(alloc: Global, text: &[u8]) -> Result<Option<Form>, AllocError>
    ensures { IfOk result (λ found. MatchOption found (o.Never h.IsFunction text.now) (λ form. o.Sole h.IsFunction text.now form)) }
{
    let typed = type_at(first_byte(text));
    let Some(behind) = behind_word(text, type_spelling(typed)) else {
        return Ok(None);
    };
    let Some(rest) = behind_word(behind, b"FUNCTION".as_slice()) else {
        return Ok(None);
    };
    let Some((name, dummies)) = named_list(alloc, rest)? else {
        return Ok(None);
    };
    Ok(Some(Form::Head(UnitKind::Function, typed, name, dummies)))
}

fn block(alloc: Global, text: &[u8]) -> Result<Option<Form>, AllocError>
    ensures { IfOk result (λ found. MatchOption found (o.Never h.IsBlock text.now) (λ form. o.Sole h.IsBlock text.now form)) }
{
    let Some(name) = behind_word(text, b"BLOCKDATA".as_slice()) else {
        return Ok(None);
    };
    if name.is_empty() {
        return Ok(Some(Form::Head(
            UnitKind::BlockData,
            None,
            name_of(alloc, text)?,
            List::new(alloc),
        )));
    }
    if !is_name(name) {
        return Ok(None);
    }
    Ok(Some(Form::Head(
        UnitKind::BlockData,
        None,
        name_of(alloc, name)?,
        List::new(alloc),
    )))
}

/// The head of a unit that a text is. The first letter tells which it can be.
pub fn head_form(alloc: Global, text: &[u8]) -> Result<Option<Form>, AllocError>
    ensures { IfOk result (λ found. MatchOption found (o.Never h.IsHeadForm text.now) (λ form. o.Sole h.IsHeadForm text.now form)) }
{
    let first = first_byte(text);
    if first == b'P' {
        return program(alloc, text);
    }
    if first == b'S' {
        return subroutine(alloc, text);
    }
    if first == b'B' {
        return block(alloc, text);
    }
    function(alloc, text)
}

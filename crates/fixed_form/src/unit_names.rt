//! The names of units.
ghost use Rattle.std.specs.Prelude.{◌≡◌, ◌∷◌, [], codes, length, IfOk, MatchOption};
ghost use Rattle.std.specs.Bool.{MatchBool};
ghost use Rattle.fixed_form.specs.Heads as h;
ghost use Rattle.fixed_form.specs.UnitNames as u;

use super::words::{behind_word, word_run};
use f77_tree::{List, Name, is_name};
use std::alloc::{AllocError, Global};

/// The byte behind the name at the front, and the text behind that byte.
fn front_name(text: &[u8]) -> Option<(u8, &[u8])>
    ensures { MatchOption result (h.NoFrontName text.now) (λ x. h.FrontName text.now x.0 x.1.now) }
{
    let (name, behind) = text.split_at(word_run(text));
    if !is_name(name) {
        return None;
    }
    let Some((mark, rest)) = behind.split_first() else {
        return None;
    };
    Some((*mark, rest))
}

/// Whether a text is names between commas and a closing parenthesis.
fn are_names(text: &[u8]) -> bool
    ensures { MatchBool result (u.AreNames text.now) (u.AreNames text.now → ⊥) }
{
    let mut rest = text;
    'name: while let Some((mark, after)) = front_name(rest) {
        if mark == b')' {
            return after.is_empty();
        }
        if mark != b',' {
            return false;
        }
        rest = after;
    }
    false
}

fn is_empty_list(text: &[u8]) -> bool
    ensures { MatchBool result (text.now ≡ codes "()") (text.now ≡ codes "()" → ⊥) }
{
    text == b"()".as_slice()
}

/// Whether a text is a list of names in parentheses, or of none.
fn is_list(text: &[u8]) -> bool
    ensures { MatchBool result (u.IsList text.now) (u.IsList text.now → ⊥) }
{
    if is_empty_list(text) {
        return true;
    }
    let Some(rest) = behind_word(text, b"(".as_slice()) else {
        return false;
    };
    are_names(rest)
}

/// The name of a text that is a name with a list.
fn named_list(text: &[u8]) -> Option<&[u8]>
    ensures { MatchOption result (h.NoNamedList text.now) (λ name. h.IsNamedList text.now name.now) }
{
    let (name, list) = text.split_at(word_run(text));
    if !is_name(name) {
        return None;
    }
    if !is_list(list) {
        return None;
    }
    Some(name)
}

fn program(text: &[u8]) -> Option<&[u8]>
    ensures { MatchOption result (h.NoHead h.IsProgram text.now) (λ name. h.IsProgram text.now name.now) }
{
    let Some(rest) = behind_word(text, b"PROGRAM".as_slice()) else {
        return None;
    };
    if is_name(rest) { Some(rest) } else { None }
}

fn subroutine(text: &[u8]) -> Option<&[u8]>
    ensures { MatchOption result (h.NoHead h.IsSubroutine text.now) (λ name. h.IsSubroutine text.now name.now) }
{
    let Some(rest) = behind_word(text, b"SUBROUTINE".as_slice()) else {
        return None;
    };
    if is_name(rest) {
        return Some(rest);
    }
    named_list(rest)
}

fn block<'a>(text: &'a [u8]) -> Option<&'a [u8]>
    ensures { MatchOption result (h.NoHead h.IsBlock text.now) (λ name. h.IsBlock text.now name.now) }
{
    let Some(rest) = behind_word(text, b"BLOCKDATA".as_slice()) else {
        return None;
    };
    if rest.is_empty() {
        return Some(text);
    }
    if is_name(rest) { Some(rest) } else { None }
}

/// The name of a function whose head begins with this word.
fn function_after<'a>(text: &'a [u8], word: &[u8]) -> Option<&'a [u8]>
    ensures { MatchOption result (h.NoHead (h.IsFunction word.now) text.now) (λ name. h.IsFunction word.now text.now name.now) }
{
    let Some(behind) = behind_word(text, word) else {
        return None;
    };
    let Some(rest) = behind_word(behind, b"FUNCTION".as_slice()) else {
        return None;
    };
    named_list(rest)
}

fn function(text: &[u8]) -> Option<&[u8]>
    ensures { MatchOption result (h.NoHead h.IsAnyFunction text.now) (λ name. h.IsAnyFunction text.now name.now) }
{
    if let Some(name) = function_after(text, b"".as_slice()) {
        return Some(name);
    }
    if let Some(name) = function_after(text, b"INTEGER".as_slice()) {
        return Some(name);
    }
    if let Some(name) = function_after(text, b"LOGICAL".as_slice()) {
        return Some(name);
    }
    if let Some(name) = function_after(text, b"REAL".as_slice()) {
        return Some(name);
    }
    if let Some(name) = function_after(text, b"DOUBLEPRECISION".as_slice()) {
        return Some(name);
    }
    function_after(text, b"COMPLEX".as_slice())
}

/// The name of a head.
fn head_name(text: &[u8]) -> Option<&[u8]>
    ensures { MatchOption result (h.NoHead u.IsHead text.now) (λ name. u.IsHead text.now name.now) }
{
    if let Some(name) = program(text) {
        return Some(name);
    }
    if let Some(name) = subroutine(text) {
        return Some(name);
    }
    if let Some(name) = block(text) {
        return Some(name);
    }
    function(text)
}

/// The name of a unit whose first statement has this text.
pub fn unit_name(alloc: Global, first: &[u8]) -> Result<Name, AllocError>
    ensures { IfOk result (λ name. u.NamesUnit first.now name) }
{
    match head_name(first) {
        Some(name) => Ok(Name::from_list(List::from_slice(alloc, name)?)),
        None => Ok(Name::from_list(List::from_slice(alloc, b"MAIN".as_slice())?)),
    }
}

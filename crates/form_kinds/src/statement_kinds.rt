//! The kinds of statements.
ghost use Rattle.std.specs.Prelude.{◌≡◌, codes, MatchOption};
ghost use Rattle.std.specs.Bool.{MatchBool};
ghost use Rattle.fixed_form.specs.Heads.{Lacks};
ghost use Rattle.form_kinds.specs.StatementKinds as k;

use super::labels::{digit_run, is_digit, label_of};
use super::scans::first_outside;
use f77_tree::is_name;
use fixed_form::behind_word;

/// What a statement is by its text, before its parts are read. `Worded` begins with a word, or is the head of a unit.
#[derive(Clone, Copy, Debug, Drop, PartialEq, Eq)]
pub enum StatementKind {
    Assignment,
    Do,
    BlockIf,
    ArithmeticIf,
    LogicalIf,
    Worded,
}

/// The kind of a text that has this behind `IF(`, a condition and `)`.
fn kind_behind(text: &[u8]) -> StatementKind
    ensures { result ≡ k.kind_behind text.now }
{
    let Some((first, _)) = text.split_first() else {
        return StatementKind::LogicalIf;
    };
    if *first == b'=' {
        StatementKind::Assignment
    } else if text == b"THEN".as_slice() {
        StatementKind::BlockIf
    } else if is_digit(*first) {
        StatementKind::ArithmeticIf
    } else {
        StatementKind::LogicalIf
    }
}

/// The condition of a text that begins with `IF(`, up to the matching parenthesis, and what stands behind that.
pub fn if_parts(text: &[u8]) -> Option<(&[u8], &[u8])>
    ensures { MatchOption result (k.NoIf text.now) (λ x. k.IsIf text.now x.0.now x.1.now) }
{
    let Some(inside) = behind_word(text, b"IF(".as_slice()) else {
        return None;
    };
    first_outside(b')', inside)
}

/// What stands behind a comma at the front, or the whole text without one.
fn behind_comma(text: &[u8]) -> &[u8]
    ensures { k.SkipsMark text.now result.now }
{
    match behind_word(text, b",".as_slice()) {
        Some(rest) => rest,
        None => text,
    }
}

/// The label and the name of a text that is `DO`, a label, an optional comma and a name.
pub fn do_head(text: &[u8]) -> Option<(u32, &[u8])>
    ensures { MatchOption result (k.NoDoHead text.now) (λ x. k.IsDoHead text.now x.0 x.1.now) }
{
    let Some(rest) = behind_word(text, b"DO".as_slice()) else {
        return None;
    };
    let (digits, behind) = rest.split_at(digit_run(rest));
    if digits.is_empty() {
        return None;
    }
    if digits.len() > 5 {
        return None;
    }
    let name = behind_comma(behind);
    if !is_name(name) {
        return None;
    }
    Some((label_of(digits), name))
}

/// Whether the texts before an `=` and behind it are those of a DO.
fn is_do(before: &[u8], behind: &[u8]) -> bool
    ensures { MatchBool result (k.SomeDo before.now behind.now) (k.NoDo before.now behind.now) }
{
    let Some((_label, _name)) = do_head(before) else {
        return false;
    };
    match first_outside(b',', behind) {
        Some((_limit, _more)) => true,
        None => false,
    }
}

/// The kind of a statement with these texts before an `=` and behind it.
fn kind_around(before: &[u8], behind: &[u8]) -> StatementKind
    ensures { k.IsKindAround before.now behind.now result }
{
    if is_do(before, behind) {
        StatementKind::Do
    } else {
        StatementKind::Assignment
    }
}

/// The kind of a statement that doesn't begin with `IF(`.
fn other_kind(text: &[u8]) -> StatementKind
    requires { Lacks text.now (codes "IF(") }
    ensures { k.IsKind text.now result }
{
    match first_outside(b'=', text) {
        Some((before, behind)) => kind_around(before, behind),
        None => StatementKind::Worded,
    }
}

/// A kind of a statement.
fn read_kind(text: &[u8]) -> StatementKind
    ensures { k.IsKind text.now result }
{
    let Some(inside) = behind_word(text, b"IF(".as_slice()) else {
        return other_kind(text);
    };
    match first_outside(b')', inside) {
        Some((_, behind)) => kind_behind(behind),
        None => StatementKind::LogicalIf,
    }
}

/// The kind of a statement: each text has exactly one.
pub fn statement_kind(text: &[u8]) -> StatementKind
    ensures kind { k.IsKind text.now result }
    ensures only { (other : StatementKind) → k.IsKind text.now other → other ≡ result }
{
    read_kind(text)
}

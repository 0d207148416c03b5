//! Statements of the whole language that this one lacks.
ghost use Rattle.std.specs.Prelude.{◌≡◌, MatchOption};
ghost use Rattle.std.specs.Bool.{MatchBool};
ghost use Rattle.form_kinds.specs.declared.statement_kinds.StatementKind.TheVariants as kind;
ghost use Rattle.form_kinds.specs.StatementKinds as k;
ghost use Rattle.f77_tree.specs.Names as n;
ghost use Rattle.form_kinds.specs.Foreign as f;
ghost use Rattle.form_kinds.specs.Keywords as w;

use super::keywords::{Keyword, keyword_of};
use super::statement_kinds::{StatementKind, if_parts, statement_kind};

fn begins_type(text: &[u8]) -> bool
    ensures { result ≡ f.begins_type text.now }
{
    text.starts_with(b"CHARACTER".as_slice())
        || text.starts_with(b"COMPLEX".as_slice())
        || text.starts_with(b"DOUBLEPRECISION".as_slice())
        || text.starts_with(b"REAL".as_slice())
}

fn begins_file(text: &[u8]) -> bool
    ensures { result ≡ f.begins_file text.now }
{
    text.starts_with(b"BACKSPACE".as_slice())
        || text.starts_with(b"CLOSE".as_slice())
        || text.starts_with(b"ENDFILE".as_slice())
        || text.starts_with(b"INQUIRE".as_slice())
        || text.starts_with(b"OPEN".as_slice())
        || text.starts_with(b"REWIND".as_slice())
        || text.starts_with(b"WRITE".as_slice())
}

fn begins_other(text: &[u8]) -> bool
    ensures { result ≡ f.begins_other text.now }
{
    text.starts_with(b"ASSIGN".as_slice())
        || text.starts_with(b"ENTRY".as_slice())
        || text.starts_with(b"EQUIVALENCE".as_slice())
        || text.starts_with(b"FORMAT".as_slice())
        || text.starts_with(b"PAUSE".as_slice())
}

fn begins_foreign(text: &[u8]) -> bool
    ensures { result ≡ f.begins_foreign text.now }
{
    begins_type(text) || begins_file(text) || begins_other(text)
}

fn is_letter(b: u8) -> bool
    ensures { result ≡ n.is_letter b }
{
    b >= b'A' && b <= b'Z'
}

/// Whether what stands behind a word makes it a statement that is lacking.
fn is_foreign_use(word: Keyword, rest: &[u8]) -> bool
    ensures { result ≡ f.is_foreign_use word rest.now }
{
    match (word, rest.split_first()) {
        (Keyword::Print | Keyword::Read, None) => true,
        (Keyword::Print | Keyword::Read, Some((b, _))) => *b != b'*',
        (Keyword::GoTo, Some((b, _))) => is_letter(*b),
        (Keyword::Return, Some(_)) => true,
        _ => false,
    }
}

fn uses_foreign(text: &[u8]) -> bool
    ensures { result ≡ f.uses_foreign (w.keyword_of text.now) text.now }
{
    match keyword_of(text) {
        Some(word) => is_foreign_use(word, word.behind(text)),
        None => false,
    }
}

fn is_foreign_text(text: &[u8]) -> bool
    ensures { result ≡ f.is_foreign_text text.now }
{
    begins_foreign(text) || uses_foreign(text)
}

/// The statement in a logical IF.
fn statement_inside(text: &[u8]) -> Option<&[u8]>
    ensures { MatchOption result (f.NoneInside text.now) (λ statement. f.HasInside text.now statement.now) }
{
    if statement_kind(text) != StatementKind::LogicalIf {
        return None;
    }
    match if_parts(text) {
        Some((_condition, statement)) => Some(statement),
        None => None,
    }
}

/// Whether a statement is one that the language has and this one lacks, or a logical IF with such a statement in it. The
/// head of a function of type REAL, DOUBLE PRECISION or COMPLEX is among them. It takes no memory.
pub fn is_foreign(text: &[u8]) -> bool
    ensures { MatchBool result (f.IsForeign text.now) (f.IsForeign text.now → ⊥) }
{
    let mut rest = text;
    'inside: while let Some(statement) = statement_inside(rest) {
        rest = statement;
    }
    if statement_kind(rest) != StatementKind::Worded {
        return false;
    }
    is_foreign_text(rest)
}

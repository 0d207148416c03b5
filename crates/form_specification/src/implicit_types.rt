//! IMPLICIT statements behind their word.
ghost use Rattle.std.specs.Prelude.{◌≡◌, ◌≤◌, true, false, IfOk, MatchOption};
ghost use Rattle.f77_expr.specs.Depth as d;
ghost use Rattle.form_parts.specs.Only as o;
ghost use Rattle.form_specification.specs.Specifications as q;

use f77_expr::{Kind, Token};
use f77_tree::{List, TypeWord, is_name};
use form_parts::{Part, eat, parenthesized, whole};
use std::alloc::{AllocError, Global};

/// A range of letters.
pub struct RangePart;

/// A type with its letters.
pub struct RulePart;

/// The letter at the front of the tokens, and the tokens behind it.
fn letter(tokens: &[Token]) -> Option<(u8, &[Token])>
    requires { d.deepest tokens.now ≤ 100 }
    ensures shallow { MatchOption result (Unit {0}) (λ x. d.deepest x.1.now ≤ 100) }
    ensures letter { MatchOption result (o.NoFront q.IsLetter tokens.now) (λ x. o.OnlyFront q.IsLetter tokens.now x.0 x.1.now) }
{
    let Some((Token::Word(word), rest)) = tokens.split_first() else {
        return None;
    };
    let bytes = word.as_slice();
    if bytes.len() == 1 && is_name(bytes) {
        Some((bytes[0], rest))
    } else {
        None
    }
}

impl Part for RangePart {
    type Out = (u8, u8);

    ghost reads = { q.IsRange };

    ghost slash = { false };

    fn read(_alloc: Global, tokens: &[Token]) -> Result<Option<((u8, u8), &[Token])>, AllocError> {
        let Some((first, behind)) = letter(tokens) else {
            return Ok(None);
        };
        let Some(after) = eat(Kind::Minus, behind) else {
            return Ok(Some(((first, first), behind)));
        };
        let Some((last, rest)) = letter(after) else {
            return Ok(None);
        };
        Ok(Some(((first, last), rest)))
    }
}

/// The type that a word names in IMPLICIT.
fn type_of(word: &[u8]) -> Option<TypeWord>
    ensures { result ≡ q.type_of word.now }
{
    if word == b"INTEGER".as_slice() {
        Some(TypeWord::Integer)
    } else if word == b"LOGICAL".as_slice() {
        Some(TypeWord::Logical)
    } else if word == b"REAL".as_slice() {
        Some(TypeWord::Real)
    } else if word == b"DOUBLEPRECISION".as_slice() {
        Some(TypeWord::DoublePrecision)
    } else {
        None
    }
}

/// The type at the front of the tokens, and the tokens behind it.
fn type_word(tokens: &[Token]) -> Option<(TypeWord, &[Token])>
    requires { d.deepest tokens.now ≤ 100 }
    ensures shallow { MatchOption result (Unit {0}) (λ x. d.deepest x.1.now ≤ 100) }
    ensures word { MatchOption result (o.NoFront q.IsTypeWord tokens.now) (λ x. o.OnlyFront q.IsTypeWord tokens.now x.0 x.1.now) }
{
    let Some((Token::Word(word), rest)) = tokens.split_first() else {
        return None;
    };
    let found = type_of(word.as_slice())?;
    Some((found, rest))
}

impl Part for RulePart {
    type Out = (TypeWord, List<(u8, u8)>);

    ghost reads = { q.IsRule };

    ghost slash = { true };

    fn read(
        alloc: Global,
        tokens: &[Token],
    ) -> Result<Option<((TypeWord, List<(u8, u8)>), &[Token])>, AllocError> {
        let Some((word, behind)) = type_word(tokens) else {
            return Ok(None);
        };
        let Some((letters, rest)) = parenthesized::<RangePart>(alloc, behind)? else {
            return Ok(None);
        };
        Ok(Some(((word, letters), rest)))
    }
}

/// The types and letters of IMPLICIT behind the word.
pub fn implicit(
    alloc: Global,
    tokens: &[Token],
) -> Result<Option<List<(TypeWord, List<(u8, u8)>)>>, AllocError>
    requires { d.deepest tokens.now ≤ 100 }
    ensures { IfOk result (λ found. MatchOption found (o.Never q.IsImplicit tokens.now) (λ all. o.Sole q.IsImplicit tokens.now all)) }
{
    whole::<RulePart>(alloc, tokens)
}

//! The token that stands at the bytes of a piece.
ghost use Rattle.std.specs.Prelude.{◌≡◌, ◌∷◌, [], ◌++◌, IfOk};
ghost use Rattle.f77_expr.specs.Fronts as f;
ghost use Rattle.f77_expr.specs.Spelling as p;

use super::fronts::Sort;
use super::token::Token;
use f77_tree::{List, Name};
use std::alloc::{AllocError, Global};

/// What stands between the first byte and the last.
fn inside(bytes: &[u8]) -> &[u8]
    ensures { (b c : _) (content : p.Text) → bytes.now ≡ b ∷ (content ++ c ∷ []) → result.now ≡ content }
{
    let Some((_, rest)) = bytes.split_first() else {
        return bytes;
    };
    let Some((_, content)) = rest.split_last() else {
        return rest;
    };
    content
}

/// Bytes with each doubled apostrophe as one.
fn undoubled(alloc: Global, bytes: &[u8]) -> Result<List<u8>, AllocError>
    ensures { IfOk result (λ all. (content : p.Text) → bytes.now ≡ p.doubled content → all ≡ content) }
{
    let mut all = List::new(alloc);
    let mut half = false;
    for b in bytes {
        if half {
            half = false;
        } else {
            all.push(*b)?;
            half = *b == b'\'';
        }
    }
    Ok(all)
}

fn text(alloc: Global, bytes: &[u8]) -> Result<Token, AllocError>
    ensures { IfOk result (λ token. (other : _) → f.IsLiteral bytes.now other → other ≡ token) }
{
    Ok(Token::Text(undoubled(alloc, inside(bytes))?))
}

fn dot(alloc: Global, bytes: &[u8]) -> Result<Token, AllocError>
    ensures { IfOk result (λ token. (other : _) → f.IsDotWord bytes.now other → other ≡ token) }
{
    Ok(Token::Dot(Name::from_list(List::from_slice(alloc, inside(bytes))?)))
}

/// The token of this sort at these bytes.
pub fn token_of(alloc: Global, sort: Sort, bytes: &[u8]) -> Result<Token, AllocError>
    ensures { IfOk result (λ token. (other : _) → f.HasSort sort bytes.now other → other ≡ token) }
{
    match sort {
        Sort::Word => Ok(Token::Word(List::from_slice(alloc, bytes)?)),
        Sort::Int(value) => Ok(Token::Int(value, bytes.len())),
        Sort::Literal => text(alloc, bytes),
        Sort::Dot => dot(alloc, bytes),
        Sort::Sign(b) => Ok(Token::Sign(b)),
        Sort::Power => Ok(Token::Power),
    }
}

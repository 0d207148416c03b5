//! The tokens of a text without blanks.
ghost use Rattle.std.specs.Prelude.{◌≡◌, ◌≤◌, ◌++◌, ◌∷◌, [], List, IfOk, IfErr};
ghost use Rattle.f77_expr.specs.Depth as d;
ghost use Rattle.f77_expr.specs.Fronts as f;
ghost use Rattle.f77_expr.specs.Lexing as x;

use super::building::token_of;
use super::depth::depth;
use super::fault::fault_at;
use super::fronts::{Part, front};
use super::token::Token;
use f77_tree::{List, Place, Refused};
use std::alloc::{AllocError, Global};

/// The tokens among the pieces so far, and which other pieces were met.
#[derive(Drop)]
struct Seen {
    tokens: List<Token>,
    unclosed: bool,
    large: bool,
    strange: bool,
}

/// The tokens with one more.
fn with_token(tokens: List<Token>, token: Token) -> Result<List<Token>, AllocError>
    ensures { IfOk result (λ all. all ≡ tokens ++ token ∷ []) }
{
    let mut tokens = tokens;
    tokens.push(token)?;
    Ok(tokens)
}

/// What is known with one piece more.
fn with_piece(alloc: Global, seen: Seen, part: Part, bytes: &[u8]) -> Result<Seen, AllocError>
    ensures { IfOk result (λ next. (before : List x.Piece) (piece : x.Piece) → f.IsPart part bytes.now piece
        → f.Stands before seen.tokens seen.unclosed seen.large seen.strange
        → f.Stands (before ++ piece ∷ []) next.tokens next.unclosed next.large next.strange) }
{
    match part {
        Part::Good(sort) => Ok(Seen {
            tokens: with_token(seen.tokens, token_of(alloc, sort, bytes)?)?,
            unclosed: seen.unclosed,
            large: seen.large,
            strange: seen.strange,
        }),
        Part::Large => Ok(Seen {
            tokens: seen.tokens,
            unclosed: seen.unclosed,
            large: true,
            strange: seen.strange,
        }),
        Part::Unclosed => Ok(Seen {
            tokens: seen.tokens,
            unclosed: true,
            large: seen.large,
            strange: seen.strange,
        }),
        Part::Strange => Ok(Seen {
            tokens: seen.tokens,
            unclosed: seen.unclosed,
            large: seen.large,
            strange: true,
        }),
    }
}

/// What is known of all the pieces of a text.
fn pieces(alloc: Global, text: &[u8]) -> Result<Seen, AllocError>
    ensures { IfOk result (λ seen. f.Knows text.now seen.tokens seen.unclosed seen.large seen.strange) }
{
    let mut seen = Seen {
        tokens: List::new(alloc),
        unclosed: false,
        large: false,
        strange: false,
    };
    let mut rest = text;
    'piece: while !rest.is_empty() {
        let (part, length) = front(rest);
        let (bytes, after) = rest.split_at(length);
        seen = with_piece(alloc, seen, part, bytes)?;
        rest = after;
    }
    Ok(seen)
}

/// The tokens of a text, or the first of faults 10, 9, 11 and 6 in this order: a literal that isn't closed, an integer
/// above 9223372036854775807, more than 100 parentheses in each other in the whole text, a part that is no token.
pub fn tokens(alloc: Global, text: &[u8], at: &Place) -> Result<List<Token>, Refused>
    ensures tokens { IfOk result (λ all. x.Lexes text.now all) }
    ensures depth { IfOk result (λ all. d.deepest all ≤ 100) }
    ensures fault { IfErr result (λ e. x.Explains e at.now text.now) }
{
    let seen = pieces(alloc, text)?;
    if seen.unclosed {
        return Err(Refused::Fault(fault_at(alloc, 10, at)?));
    }
    if seen.large {
        return Err(Refused::Fault(fault_at(alloc, 9, at)?));
    }
    if depth(seen.tokens.as_slice()) > 100 {
        return Err(Refused::Fault(fault_at(alloc, 11, at)?));
    }
    if seen.strange {
        return Err(Refused::Fault(fault_at(alloc, 6, at)?));
    }
    Ok(seen.tokens)
}

/// How many tokens the limits count in a text: a byte that begins no token and a literal that isn't closed count as one
/// each. It takes no memory.
pub fn token_count(text: &[u8]) -> usize
    ensures count { x.Counts text.now result }
{
    let mut count = 0;
    let mut rest = text;
    'piece: while !rest.is_empty() {
        let (_, length) = front(rest);
        let (_, after) = rest.split_at(length);
        count += 1;
        rest = after;
    }
    count
}

//! The piece at the front of a text: what it is, and how many bytes it has. Nothing here takes memory.
ghost use Rattle.std.specs.Prelude.{◌≡◌, ◌<◌, ◌≤◌, ◌^◌, ◌∷◌, true, length, pos, slice_index, MatchOption};
ghost use Rattle.std.specs.Bool.{MatchBool};
ghost use Rattle.f77_tree.specs.Names as n;
ghost use Rattle.f77_expr.specs.declared.token.Kind.TheVariants as k;
ghost use Rattle.f77_expr.specs.Kinds as kinds;
ghost use Rattle.f77_expr.specs.Fronts as f;
ghost use Rattle.f77_expr.specs.Runs as r;
ghost use Rattle.f77_expr.specs.Spelling as p;

use super::token::{Kind, dot_kind, sign_kind};

/// How a token is spelled. An integer has its value.
#[derive(Clone, Copy, Debug, Drop)]
pub enum Sort {
    Word,
    Int(i64),
    Literal,
    Dot,
    Sign(u8),
    Power,
}

/// What a piece of a text is: a token, digits whose value is too large, a literal that isn't closed, or a byte that
/// begins no token.
#[derive(Clone, Copy, Debug, Drop)]
pub enum Part {
    Good(Sort),
    Large,
    Unclosed,
    Strange,
}

/// The greatest value of an integer.
const GREATEST: u64 = 9_223_372_036_854_775_807;

fn is_letter(b: u8) -> bool
    ensures { result ≡ n.is_letter b }
{
    b >= b'A' && b <= b'Z'
}

fn is_digit(b: u8) -> bool
    ensures { result ≡ p.is_digit b }
{
    b >= b'0' && b <= b'9'
}

fn is_word(b: u8) -> bool
    ensures { result ≡ n.is_word b }
{
    is_letter(b) || is_digit(b) || b == b'_'
}

/// How many letters, digits and `_` stand at the front.
fn word_run(text: &[u8]) -> usize
    ensures { r.IsRun n.is_word text.now result }
{
    'byte: for i in 0..text.len() {
        if !is_word(text[i]) {
            return i;
        }
    }
    text.len()
}

/// How many digits stand at the front.
fn digit_run(text: &[u8]) -> usize
    ensures { r.IsRun p.is_digit text.now result }
{
    'byte: for i in 0..text.len() {
        if !is_digit(text[i]) {
            return i;
        }
    }
    text.len()
}

/// The value of digits, where it isn't above the greatest.
fn value(digits: &[u8]) -> Option<i64>
    ensures { MatchOption result (2 ^ 63 ≤ p.value_of digits.now) (λ n. (n ≡ pos (p.value_of digits.now)) × (p.value_of digits.now < 2 ^ 63)) }
{
    let mut value: u64 = 0;
    for b in digits {
        value = value
            .checked_mul(10)?
            .checked_add(u64::from(b.saturating_sub(b'0')))?;
    }
    if value > GREATEST {
        None
    } else {
        Some(value as i64)
    }
}

fn integer(text: &[u8]) -> (Part, usize)
    requires some { 0 < length text.now }
    requires digit { p.is_digit (slice_index text.now 0) ≡ true }
    ensures { f.Begins text.now result.0 result.1 }
{
    let run = digit_run(text);
    let (digits, _) = text.split_at(run);
    match value(digits) {
        Some(value) => (Part::Good(Sort::Int(value)), run),
        None => (Part::Large, run),
    }
}

/// A literal ends at an apostrophe with none behind it.
fn literal(text: &[u8]) -> (Part, usize)
    requires some { 0 < length text.now }
    requires quote { slice_index text.now 0 ≡ 39 }
    ensures { f.Begins text.now result.0 result.1 }
{
    let mut open = true;
    'byte: for i in 1..text.len() {
        if text[i] == b'\'' {
            open = !open;
        } else if !open {
            return (Part::Good(Sort::Literal), i);
        }
    }
    if open {
        (Part::Unclosed, text.len())
    } else {
        (Part::Good(Sort::Literal), text.len())
    }
}

/// The text behind a byte that stands first.
fn behind(text: &[u8], b: u8) -> Option<&[u8]>
    ensures { MatchOption result (f.BeginsOther text.now b) (λ rest. text.now ≡ b ∷ rest.now) }
{
    let (first, rest) = text.split_first()?;
    if *first == b { Some(rest) } else { None }
}

fn dot_word(text: &[u8]) -> (Part, usize)
    requires some { 0 < length text.now }
    requires dot { slice_index text.now 0 ≡ 46 }
    ensures { f.Begins text.now result.0 result.1 }
{
    let (_, after) = text.split_at(1);
    let run = word_run(after);
    let (word, rest) = after.split_at(run);
    if dot_kind(word) == Kind::Other {
        return (Part::Strange, 1);
    }
    match behind(rest, b'.') {
        Some(_) => (Part::Good(Sort::Dot), run + 2),
        None => (Part::Strange, 1),
    }
}

fn is_power(text: &[u8]) -> bool
    ensures { MatchBool result (f.IsPower text.now) (f.IsPower text.now → ⊥) }
{
    match text {
        [first, second, ..] => *first == b'*' && *second == b'*',
        _ => false,
    }
}

fn sign(text: &[u8]) -> (Part, usize)
    requires some { 0 < length text.now }
    requires sign { kinds.sign_kind (slice_index text.now 0) ≡ k.Other → ⊥ }
    ensures { f.Begins text.now result.0 result.1 }
{
    if is_power(text) {
        (Part::Good(Sort::Power), 2)
    } else {
        (Part::Good(Sort::Sign(text[0])), 1)
    }
}

/// What the longest piece at the front of a text is, and its length.
pub fn front(text: &[u8]) -> (Part, usize)
    requires some { 0 < length text.now }
    ensures begins { f.Begins text.now result.0 result.1 }
{
    let b = text[0];
    if is_letter(b) {
        (Part::Good(Sort::Word), word_run(text))
    } else if is_digit(b) {
        integer(text)
    } else if b == b'\'' {
        literal(text)
    } else if b == b'.' {
        dot_word(text)
    } else if sign_kind(b) == Kind::Other {
        (Part::Strange, 1)
    } else {
        sign(text)
    }
}

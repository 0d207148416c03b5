//! Tokens, and the expressions that stand in them.
use super::trees::{put_literal, put_tree};
use f77_expr::{
    Expr, List, Op, Place, Refused, Token, expression, token_count, tokens, whole_expression,
};
use std::alloc::{AllocError, Global};
use table_rows::{put, put_byte, put_number, put_refusal};

/// The statement that faults are told at.
fn place() -> Place {
    Place {
        unit: None,
        line: 7,
    }
}

fn put_token(alloc: Global, out: &mut Vec<u8>, token: &Token) -> Result<(), AllocError> {
    match token {
        Token::Word(word) => out.extend_from_slice(word.as_slice()),
        Token::Int(value, digits) => put(out, format!(in alloc; "{value}:{digits}")?.as_str()),
        Token::Text(bytes) => put_literal(out, bytes.as_slice()),
        Token::Dot(word) => {
            put(out, ".")?;
            out.extend_from_slice(word.as_bytes())
        }
        Token::Sign(b) => put_byte(out, *b),
        Token::Power => put(out, "^"),
    }
}

fn put_tokens(alloc: Global, out: &mut Vec<u8>, all: &[Token]) -> Result<(), AllocError> {
    for token in all {
        put(out, if out.is_empty() { "" } else { " " })?;
        put_token(alloc, out, token)?;
    }
    Ok(())
}

/// The tokens of a text: words, integers with the number of their digits, literals in angle brackets, dot words with one
/// dot, `^` for `**`.
pub fn all_tokens(alloc: Global, out: &mut Vec<u8>, text: &[u8]) -> Result<(), Refused> {
    let all = tokens(alloc, text, &place())?;
    put_tokens(alloc, out, all.as_slice())?;
    Ok(())
}

/// How many tokens a text has, as the limit of a unit counts them.
pub fn counts(alloc: Global, out: &mut Vec<u8>, text: &[u8]) -> Result<(), Refused> {
    put_number(alloc, out, token_count(text) as u64)?;
    Ok(())
}

/// The fault of a text in its tokens, where it has one.
pub fn token_faults(alloc: Global, out: &mut Vec<u8>, text: &[u8]) -> Result<(), Refused> {
    let _ = tokens(alloc, text, &place())?;
    put(out, "no fault")?;
    Ok(())
}

fn append_word(alloc: Global, all: &mut List<Token>, word: &[u8]) -> Result<(), Refused> {
    let more = tokens(alloc, word, &place())?;
    all.append(more)?;
    Ok(())
}

/// The tokens of words with blanks between, each word by itself.
fn spelled(alloc: Global, text: &[u8]) -> Result<List<Token>, Refused> {
    let mut all = List::new(alloc);
    let mut word = Vec::new(alloc);
    for byte in text {
        if *byte == b' ' {
            append_word(alloc, &mut all, word.as_slice())?;
            word.clear();
        } else {
            put_byte(&mut word, *byte)?;
        }
    }
    append_word(alloc, &mut all, word.as_slice())?;
    Ok(all)
}

fn put_found(
    alloc: Global,
    out: &mut Vec<u8>,
    tokens: &[Token],
    from: usize,
) -> Result<(), Refused> {
    if from > tokens.len() {
        return Ok(());
    }
    let (found, to) = expression(alloc, tokens, from, &place())?;
    put_tree(alloc, out, &found)?;
    put(out, " ")?;
    put_number(alloc, out, to as u64)?;
    Ok(())
}

/// The longest expression at the first token, and the number of its tokens.
pub fn longest(alloc: Global, out: &mut Vec<u8>, text: &[u8]) -> Result<(), Refused> {
    let all = spelled(alloc, text)?;
    put_found(alloc, out, all.as_slice(), 0)
}

/// The longest expression at each place, and the place behind it; or the number of the fault.
pub fn places(alloc: Global, out: &mut Vec<u8>, text: &[u8]) -> Result<(), Refused> {
    let all = spelled(alloc, text)?;
    for from in 0..all.len() + 1 {
        put(out, if from == 0 { "" } else { "; " })?;
        put_place(alloc, out, all.as_slice(), from)?;
    }
    Ok(())
}

fn put_place(
    alloc: Global,
    out: &mut Vec<u8>,
    tokens: &[Token],
    from: usize,
) -> Result<(), Refused> {
    match put_found(alloc, out, tokens, from) {
        Ok(()) => Ok(()),
        Err(refused) => {
            put_refusal(alloc, out, &refused)?;
            Ok(())
        }
    }
}

/// The expression that a whole text is; `no` where something stands behind it.
pub fn whole(alloc: Global, out: &mut Vec<u8>, text: &[u8]) -> Result<(), Refused> {
    let all = spelled(alloc, text)?;
    put_whole(alloc, out, all.as_slice())
}

fn put_whole(alloc: Global, out: &mut Vec<u8>, tokens: &[Token]) -> Result<(), Refused> {
    match whole_expression(alloc, tokens, &place())? {
        Some(found) => put_tree(alloc, out, &found)?,
        None => put(out, "no")?,
    }
    Ok(())
}

/// How many sums lie to the left in each other, each with the number on its right. The tree is taken apart, since to drop
/// it whole takes a level of the stack for each of them.
fn lefts(whole: Expr) -> i64 {
    let mut left = whole;
    let mut count: i64 = 0;
    for n in 0..10_000i64 {
        let Expr::Binary(Op::Add, inner, last) = left else {
            return count;
        };
        if !matches!(last.get(), Expr::Int(m) if *m == 9_999_i64.wrapping_sub(n)) {
            return count;
        }
        count = n + 1;
        left = inner.into_inner();
    }
    count
}

/// How many powers lie to the right in each other, each with the number on its left.
fn rights(whole: Expr) -> i64 {
    let mut right = whole;
    let mut count: i64 = 0;
    for n in 0..10_000i64 {
        let Expr::Binary(Op::Pow, first, inner) = right else {
            return count;
        };
        if !matches!(first.get(), Expr::Int(m) if *m == n) {
            return count;
        }
        count = n + 1;
        right = inner.into_inner();
    }
    count
}

fn chain(alloc: Global, tokens: &[Token], leans_left: bool) -> Result<(i64, usize), Refused> {
    let (found, to) = expression(alloc, tokens, 0, &place())?;
    let count = if leans_left {
        lefts(found)
    } else {
        rights(found)
    };
    Ok((count, to))
}

fn put_chain(
    alloc: Global,
    out: &mut Vec<u8>,
    text: &[u8],
    leans_left: bool,
) -> Result<(), Refused> {
    let all = spelled(alloc, text)?;
    let (count, to) = chain(alloc, all.as_slice(), leans_left)?;
    put(out, format!(in alloc; "{count} of {to} tokens")?.as_str())?;
    Ok(())
}

/// The sum of the numbers from 0 to 9,999: the additions that lie to the left in each other.
pub fn sums(alloc: Global, out: &mut Vec<u8>, text: &[u8]) -> Result<(), Refused> {
    put_chain(alloc, out, text, true)
}

/// The numbers from 0 to 9,999 as a power: the powers that lie to the right in each other.
pub fn powers(alloc: Global, out: &mut Vec<u8>, text: &[u8]) -> Result<(), Refused> {
    put_chain(alloc, out, text, false)
}

fn end(alloc: Global, tokens: &[Token]) -> Result<usize, Refused> {
    let (_, to) = expression(alloc, tokens, 0, &place())?;
    Ok(to)
}

/// The number of tokens of the longest expression.
pub fn ends(alloc: Global, out: &mut Vec<u8>, text: &[u8]) -> Result<(), Refused> {
    let all = spelled(alloc, text)?;
    let to = end(alloc, all.as_slice())?;
    put_number(alloc, out, to as u64)?;
    Ok(())
}

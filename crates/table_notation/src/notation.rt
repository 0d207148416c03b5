//! The notation of texts.
//!
//! `\n` ends a line, `\t` is a tab, and `\xC8` the byte of these two digits, with which every byte can be written. `[9*TEXT]`
//! is TEXT nine times, and so is `{9*TEXT}`, whose TEXT may have such repeats by brackets. `{1-9*TEXT}` has for each number
//! from 1 to 9 the TEXT with the number, in four digits, in the place of each `#`. All else stands for itself.
ghost use Rattle.std.specs.Prelude.{◌<◌};

use std::alloc::{AllocError, Global};

// The value of a digit to the base 16, and 0 for every other byte.
fn hex_value(digit: u8) -> u8
    ensures { result < 16 }
{
    match digit {
        b'0'..=b'9' => digit - b'0',
        b'A'..=b'F' => digit - b'A' + 10,
        _ => 0,
    }
}

// What stands behind a backslash, up to the next one.
fn push_escaped(out: &mut Vec<u8>, part: &[u8]) -> Result<(), AllocError> {
    match part {
        [b'n', rest @ ..] => {
            out.push(b'\n')?;
            out.extend_from_slice(rest)
        }
        [b't', rest @ ..] => {
            out.push(b'\t')?;
            out.extend_from_slice(rest)
        }
        [b'x', high, low, rest @ ..] => {
            out.push(hex_value(*high) * 16 + hex_value(*low))?;
            out.extend_from_slice(rest)
        }
        _ => {
            out.push(b'\\')?;
            out.extend_from_slice(part)
        }
    }
}

// A text without repeats.
fn push_plain(out: &mut Vec<u8>, notation: &str) -> Result<(), AllocError> {
    for (k, part) in notation.split('\\').enumerate() {
        if k == 0 {
            out.extend_from_slice(part.as_bytes())?;
        } else {
            push_escaped(out, part.as_bytes())?;
        }
    }
    Ok(())
}

fn push_times(out: &mut Vec<u8>, piece: &[u8], times: u64) -> Result<(), AllocError> {
    for _ in 0..times {
        out.extend_from_slice(piece)?;
    }
    Ok(())
}

// What stands between brackets.
fn push_inner(alloc: Global, out: &mut Vec<u8>, repeat: &str) -> Result<(), AllocError> {
    let Some((times, notation)) = repeat.split_once('*') else {
        return push_plain(out, repeat);
    };
    let mut piece = Vec::new(alloc);
    push_plain(&mut piece, notation)?;
    push_times(out, piece.as_slice(), times.parse::<u64>().unwrap_or(0))
}

// A text with repeats by brackets.
fn push_outer(alloc: Global, out: &mut Vec<u8>, notation: &str) -> Result<(), AllocError> {
    for part in notation.split('[') {
        match part.split_once(']') {
            None => push_plain(out, part)?,
            Some((repeat, after)) => {
                push_inner(alloc, out, repeat)?;
                push_plain(out, after)?;
            }
        }
    }
    Ok(())
}

// A piece, with the number in the place of each `#`.
fn push_numbered(
    alloc: Global,
    out: &mut Vec<u8>,
    piece: &[u8],
    number: u64,
) -> Result<(), AllocError> {
    let digits = format!(in alloc; "{number:04}")?;
    for byte in piece {
        if *byte == b'#' {
            out.extend_from_slice(digits.as_bytes())?;
        } else {
            out.push(*byte)?;
        }
    }
    Ok(())
}

// A piece as often as it is wanted, `9` or `1-9`.
fn push_wanted(
    alloc: Global,
    out: &mut Vec<u8>,
    piece: &[u8],
    wanted: &str,
) -> Result<(), AllocError> {
    let Some((first, last)) = wanted.split_once('-') else {
        return push_times(out, piece, wanted.parse::<u64>().unwrap_or(0));
    };
    let first = first.parse::<u64>().unwrap_or(0);
    let last = last.parse::<u64>().unwrap_or(0);
    for number in first..=last {
        push_numbered(alloc, out, piece, number)?;
    }
    Ok(())
}

// What stands between braces.
fn push_repeat(alloc: Global, out: &mut Vec<u8>, repeat: &str) -> Result<(), AllocError> {
    let Some((wanted, notation)) = repeat.split_once('*') else {
        return push_outer(alloc, out, repeat);
    };
    let mut piece = Vec::new(alloc);
    push_outer(alloc, &mut piece, notation)?;
    push_wanted(alloc, out, piece.as_slice(), wanted)
}

/// Appends the bytes that a text in the notation of tables stands for.
pub fn push_text(alloc: Global, out: &mut Vec<u8>, notation: &str) -> Result<(), AllocError> {
    for part in notation.split('{') {
        match part.split_once('}') {
            None => push_outer(alloc, out, part)?,
            Some((repeat, after)) => {
                push_repeat(alloc, out, repeat)?;
                push_outer(alloc, out, after)?;
            }
        }
    }
    Ok(())
}

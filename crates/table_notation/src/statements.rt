//! Source texts.
use super::notation::push_text;
use std::alloc::{AllocError, Global};

// How many bytes of a statement a line has room for, in its columns 7 to 72.
const ROOM: usize = 66;

// A statement on a line and the continuation lines that it needs. Digits in front are its label.
fn push_statement(text: &mut Vec<u8>, statement: &[u8]) -> Result<(), AllocError> {
    let digits = statement
        .iter()
        .take_while(|byte| byte.is_ascii_digit())
        .count();
    for _ in digits..5 {
        text.push(b' ')?;
    }
    for (k, byte) in statement.iter().enumerate() {
        if k == 0 && digits == 0 {
            text.push(b' ')?;
        }
        if k > 0 && k % ROOM == 0 {
            text.extend_from_slice(b"\n     +")?;
        }
        text.push(*byte)?;
    }
    text.push(b'\n')?;
    Ok(())
}

// The text of statements with `;` between them.
fn lines_of(alloc: Global, statements: &[u8]) -> Result<Vec<u8>, AllocError> {
    let mut text = Vec::new(alloc);
    for statement in statements.split(|byte| *byte == b';') {
        push_statement(&mut text, statement)?;
    }
    Ok(text)
}

/// The source text that is written in a table: statements with `;` between them, or between quotation marks the text itself,
/// both in the notation of texts.
pub fn source_of(alloc: Global, written: &str) -> Result<Vec<u8>, AllocError> {
    let mut text = Vec::new(alloc);
    match written.strip_prefix('"') {
        Some(rest) => {
            push_text(alloc, &mut text, rest.strip_suffix('"').unwrap_or(rest))?;
            Ok(text)
        }
        None => {
            push_text(alloc, &mut text, written)?;
            lines_of(alloc, text.as_slice())
        }
    }
}

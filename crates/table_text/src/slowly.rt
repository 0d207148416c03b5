//! A plain, slow reading of units, to compare with.

use fixed_form::unit_name;
use std::alloc::{AllocError, Global};

/// What was read: the units that were told, the statements of this unit that were told, the text of its first, and the statement in progress.
#[derive(Drop)]
struct Slow {
    told: Vec<u8>,
    unit: Vec<u8>,
    first: Option<Vec<u8>>,
    statement: Option<Statement>,
    at: u32,
}

/// A statement by its line, its label, its columns 7 to 72 so far and the number of its continuation lines.
#[derive(Drop)]
struct Statement {
    line: u32,
    label: u32,
    fields: Vec<u8>,
    more: u8,
}

fn split(alloc: Global, text: &[u8]) -> Result<Vec<Vec<u8>>, AllocError> {
    let mut lines = Vec::new(alloc);
    let mut line = Vec::new(alloc);
    let mut open = false;
    for byte in text {
        open = *byte != 10;
        if open {
            line.push(*byte)?;
        } else {
            if line.last().copied() == Some(13) {
                line.pop();
            }
            lines.push(line)?;
            line = Vec::new(alloc);
        }
    }
    if open {
        lines.push(line)?;
    }
    Ok(lines)
}

fn card_of(alloc: Global, line: &[u8]) -> Result<Vec<u8>, AllocError> {
    let mut card = Vec::new(alloc);
    for k in 0..72_usize {
        card.push(line.get(k).copied().unwrap_or(b' '))?;
    }
    Ok(card)
}

fn is_odd(part: &[u8]) -> bool {
    part.iter().filter(|b| **b == b'\'').count() % 2 == 1
}

fn is_strange(byte: u8) -> bool {
    byte < 32 || byte > 126
}

/// The text of these columns: each byte is looked at with the number of apostrophes before it.
fn text_of(alloc: Global, fields: &[u8]) -> Result<Vec<u8>, AllocError> {
    let mut text = Vec::new(alloc);
    let mut before = Vec::new(alloc);
    for byte in fields {
        if is_odd(before.as_slice()) {
            text.push(*byte)?;
        } else if *byte != b' ' {
            text.push(byte.to_ascii_uppercase())?;
        }
        before.push(*byte)?;
    }
    Ok(text)
}

/// Whether a byte is strange outside the literals, behind the columns of the lines before.
fn has_strange(
    alloc: Global,
    fields: &[u8],
    label: &[u8],
    part: &[u8],
) -> Result<bool, AllocError> {
    let mut before = Vec::from_slice(alloc, fields)?;
    let mut strange = label.iter().any(|b| is_strange(*b));
    for byte in part {
        strange |= is_strange(*byte) && !is_odd(before.as_slice());
        before.push(*byte)?;
    }
    Ok(strange)
}

/// The value of the digits, or nothing where the columns are no label.
fn label_of(part: &[u8]) -> Option<u32> {
    let mut value = 0_u32;
    let mut digits = false;
    for byte in part {
        if byte.is_ascii_digit() {
            digits = true;
            value = value
                .saturating_mul(10)
                .saturating_add((*byte - b'0') as u32);
        } else if *byte != b' ' {
            return None;
        }
    }
    if digits && value == 0 {
        None
    } else {
        Some(value)
    }
}

/// Tells the statement in progress.
fn close(alloc: Global, slow: &mut Slow) -> Result<(), AllocError> {
    if let Some(statement) = slow.statement.take() {
        let text = text_of(alloc, statement.fields.as_slice())?;
        let numbers = format!(in alloc; "|{} {} ", statement.line, statement.label)?;
        slow.unit.extend_from_slice(numbers.as_bytes())?;
        slow.unit.extend_from_slice(text.as_slice())?;
        if slow.first.is_none() {
            slow.first = Some(text);
        }
    }
    Ok(())
}

/// Tells the unit.
fn end(alloc: Global, slow: &mut Slow) -> Result<(), AllocError> {
    close(alloc, slow)?;
    let name = match &slow.first {
        Some(text) => unit_name(alloc, text.as_slice())?,
        None => unit_name(alloc, b"".as_slice())?,
    };
    slow.told.extend_from_slice(name.as_bytes())?;
    slow.told.extend_from_slice(slow.unit.as_slice())?;
    slow.told.push(b';')?;
    slow.unit = Vec::new(alloc);
    slow.first = None;
    slow.at = 0;
    Ok(())
}

/// One more line, or the number of its fault.
fn take(alloc: Global, slow: &mut Slow, line: &[u8]) -> Result<Option<u8>, AllocError> {
    slow.at = slow.at.saturating_add(1);
    let card = card_of(alloc, line)?;
    let first = card.first().copied().unwrap_or(b' ');
    if matches!(first, b'C' | b'c' | b'*') || card.iter().all(|b| *b == b' ') {
        return Ok(None);
    }
    let (head, field) = card.as_slice().split_at(6.min(card.len()));
    let (label, mark) = head.split_at(5.min(head.len()));
    let mark = mark.first().copied().unwrap_or(b' ');
    if mark == b' ' || mark == b'0' {
        if has_strange(alloc, b"".as_slice(), head, field)? {
            return Ok(Some(1));
        }
        let Some(label) = label_of(label) else {
            return Ok(Some(2));
        };
        close(alloc, slow)?;
        slow.statement = Some(Statement {
            line: slow.at,
            label,
            fields: Vec::from_slice(alloc, field)?,
            more: 0,
        });
        if text_of(alloc, field)?.as_slice() == b"END".as_slice() {
            end(alloc, slow)?;
        }
        return Ok(None);
    }
    let before = match &slow.statement {
        Some(statement) => Vec::from_slice(alloc, statement.fields.as_slice())?,
        None => Vec::new(alloc),
    };
    if has_strange(alloc, before.as_slice(), head, field)? {
        return Ok(Some(1));
    }
    if label.iter().any(|b| *b != b' ') {
        return Ok(Some(2));
    }
    let Some(statement) = &mut slow.statement else {
        return Ok(Some(3));
    };
    statement.more = statement.more.saturating_add(1);
    if statement.more == 20 {
        return Ok(Some(4));
    }
    statement.fields.extend_from_slice(field)?;
    Ok(None)
}

/// What `told` says of the text, by a slow reading.
pub fn slowly(alloc: Global, text: &[u8]) -> Result<Vec<u8>, AllocError> {
    let mut slow = Slow {
        told: Vec::new(alloc),
        unit: Vec::new(alloc),
        first: None,
        statement: None,
        at: 0,
    };
    let mut number = 0_u32;
    for line in split(alloc, text)?.as_slice() {
        number = number.saturating_add(1);
        if let Some(fault) = take(alloc, &mut slow, line.as_slice())? {
            let text = format!(in alloc; "fault {} line {}", fault, number)?;
            return Vec::from_slice(alloc, text.as_bytes());
        }
    }
    if slow.statement.is_some() {
        let text = format!(in alloc; "fault 5 line {}", number)?;
        return Vec::from_slice(alloc, text.as_bytes());
    }
    Ok(slow.told)
}

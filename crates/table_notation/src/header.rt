//! What stands in the head of a case: words, some of which are marks of what stands behind them.
use std::alloc::{AllocError, Global};

/// The numbers that stand behind this mark, up to the next word that is no number.
pub fn numbers_behind(alloc: Global, header: &str, mark: &str) -> Result<Vec<i64>, AllocError> {
    let mut found = Vec::new(alloc);
    let mut is_behind = false;
    for word in header.split_whitespace() {
        match word.parse::<i64>() {
            Ok(number) if is_behind => found.push(number)?,
            Ok(_) => {}
            Err(_) => is_behind = word == mark,
        }
    }
    Ok(found)
}

/// The turns that stand behind this mark, counted from 1.
pub fn turns_behind(alloc: Global, header: &str, mark: &str) -> Result<Vec<u64>, AllocError> {
    let numbers = numbers_behind(alloc, header, mark)?;
    let mut turns = Vec::new(alloc);
    for number in numbers.as_slice() {
        turns.push(number.unsigned_abs())?;
    }
    Ok(turns)
}

/// The word that stands behind this mark, or nothing.
pub fn text_behind<'a>(header: &'a str, mark: &str) -> &'a str {
    match header.split_once(mark) {
        Some((_, rest)) => rest.split_whitespace().next().unwrap_or(""),
        None => "",
    }
}

//! Bytes as a program prints them for a table.
use std::alloc::{AllocError, Global};

// A byte as it stands in the notation of texts.
fn push_byte(alloc: Global, out: &mut String, byte: u8) -> Result<(), AllocError> {
    match byte {
        b'\n' => out.push_str("\\n"),
        b'\t' => out.push_str("\\t"),
        b' '..=b'~' => out.push(char::from(byte)),
        _ => {
            let digits = format!(in alloc; "\\x{byte:02X}")?;
            out.push_str(digits.as_str())
        }
    }
}

/// Bytes between quotation marks, in the notation of texts.
pub fn shown(alloc: Global, bytes: &[u8]) -> Result<String, AllocError> {
    let mut out = String::from_str(alloc, "\"")?;
    for byte in bytes {
        push_byte(alloc, &mut out, *byte)?;
    }
    out.push('"')?;
    Ok(out)
}

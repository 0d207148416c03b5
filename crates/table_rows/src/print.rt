//! Small parts of what is printed.
use f77_tree::{List, Name, Refused, SourceFault};
use fault_marks::Mark;
use std::alloc::{AllocError, Global};

/// A word behind what was told.
pub fn put(out: &mut Vec<u8>, part: &str) -> Result<(), AllocError> {
    out.extend_from_slice(part.as_bytes())
}

/// A byte behind what was told.
pub fn put_byte(out: &mut Vec<u8>, byte: u8) -> Result<(), AllocError> {
    out.push(byte)?;
    Ok(())
}

/// A number behind what was told.
pub fn put_number(alloc: Global, out: &mut Vec<u8>, number: u64) -> Result<(), AllocError> {
    put(out, format!(in alloc; "{number}")?.as_str())
}

/// A signed number behind what was told.
pub fn put_integer(alloc: Global, out: &mut Vec<u8>, number: i64) -> Result<(), AllocError> {
    put(out, format!(in alloc; "{number}")?.as_str())
}

/// Names, with a blank before each.
pub fn put_names(out: &mut Vec<u8>, all: &List<Name>) -> Result<(), AllocError> {
    for name in all.as_slice() {
        put(out, " ")?;
        out.extend_from_slice(name.as_bytes())?;
    }
    Ok(())
}

/// A fault of a text or a program: `fault 6 in MAIN line 3`, with its limit where it has one.
fn put_fault(alloc: Global, out: &mut Vec<u8>, fault: &SourceFault) -> Result<(), AllocError> {
    put(out, "fault ")?;
    put_number(alloc, out, fault.number as u64)?;
    if let Some(name) = &fault.place.unit {
        put(out, " in ")?;
        out.extend_from_slice(name.as_bytes())?;
    }
    put_line(alloc, out, fault.place.line, fault.limit)
}

fn put_line(alloc: Global, out: &mut Vec<u8>, line: u32, limit: u64) -> Result<(), AllocError> {
    put(out, " line ")?;
    put_number(alloc, out, line as u64)?;
    if limit > 0 {
        put(out, " limit ")?;
        put_number(alloc, out, limit)?;
    }
    Ok(())
}

/// The first fault that a check found: `fault 12 line 3`, or `no fault`.
pub fn put_mark(alloc: Global, out: &mut Vec<u8>, mark: &Option<Mark>) -> Result<(), AllocError> {
    match mark {
        Some(mark) => {
            put(out, "fault ")?;
            put_number(alloc, out, mark.number as u64)?;
            put_line(alloc, out, mark.line, mark.limit)
        }
        None => put(out, "no fault"),
    }
}

/// The fault of a refusal.
pub fn put_refusal(alloc: Global, out: &mut Vec<u8>, refused: &Refused) -> Result<(), AllocError> {
    match refused {
        Refused::Fault(fault) => put_fault(alloc, out, fault),
        Refused::OutOfMemory => Err(AllocError),
    }
}

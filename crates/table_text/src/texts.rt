//! Words, lines and units of a source text.
use super::slowly::slowly;
use f77_tree::{Item, List, Name, Refused, name_of};
use fixed_form::{UnitText, read_units, same_source, unit_name};
use std::alloc::{AllocError, Global};
use table_rows::{put, put_number, put_refusal};

/// The word as a name, or `-` where it is none.
pub fn names(alloc: Global, out: &mut Vec<u8>, word: &[u8]) -> Result<(), Refused> {
    match name_of(alloc, word)? {
        Some(name) => out.extend_from_slice(name.as_bytes())?,
        None => put(out, "-")?,
    }
    Ok(())
}

fn put_item(alloc: Global, out: &mut Vec<u8>, item: &Item) -> Result<(), AllocError> {
    match item {
        Item::Common(block, at) => {
            put(out, "/")?;
            out.extend_from_slice(block.as_bytes())?;
            put(out, "/+")?;
            put_number(alloc, out, *at as u64)
        }
        _ => put(out, "another"),
    }
}

/// A copy of the third unit of a block behind its first.
pub fn items(alloc: Global, out: &mut Vec<u8>, block: &[u8]) -> Result<(), Refused> {
    let name = Name::from_list(List::from_slice(alloc, block)?);
    let item = Item::Common(name, 3);
    put_item(alloc, out, &item.copy(alloc)?)?;
    Ok(())
}

/// The name of the unit whose first statement has this text.
pub fn unit_names(alloc: Global, out: &mut Vec<u8>, text: &[u8]) -> Result<(), Refused> {
    out.extend_from_slice(unit_name(alloc, text)?.as_bytes())?;
    Ok(())
}

fn put_unit(alloc: Global, out: &mut Vec<u8>, unit: &UnitText) -> Result<(), AllocError> {
    out.extend_from_slice(unit.name.as_bytes())?;
    for line in unit.statements.as_slice() {
        put(out, "|")?;
        put_number(alloc, out, line.line as u64)?;
        put(out, " ")?;
        put_number(alloc, out, line.label as u64)?;
        put(out, " ")?;
        out.extend_from_slice(line.text.as_slice())?;
    }
    put(out, ";")
}

fn put_units(alloc: Global, out: &mut Vec<u8>, text: &[u8]) -> Result<(), Refused> {
    let units = read_units(alloc, text)?;
    for unit in units.as_slice() {
        put_unit(alloc, out, unit)?;
    }
    Ok(())
}

/// The units of a text, each with its name and its statements as line, label and text; or the fault and its line.
fn read(alloc: Global, text: &[u8]) -> Result<Vec<u8>, AllocError> {
    let mut told = Vec::new(alloc);
    if let Err(refused) = put_units(alloc, &mut told, text) {
        put_refusal(alloc, &mut told, &refused)?;
    }
    Ok(told)
}

fn agrees(alloc: Global, told: &[u8], text: &[u8]) -> Result<bool, AllocError> {
    Ok(told == slowly(alloc, text)?.as_slice())
}

fn put_agreement(
    alloc: Global,
    out: &mut Vec<u8>,
    told: &[u8],
    text: &[u8],
) -> Result<(), AllocError> {
    let same = agrees(alloc, told, text)?;
    put(out, if same { "agrees" } else { "differs" })
}

/// What is read of a text, and whether a plain slow reading says the same.
pub fn units(alloc: Global, out: &mut Vec<u8>, text: &[u8]) -> Result<(), Refused> {
    let told = read(alloc, text)?;
    out.extend_from_slice(told.as_slice())?;
    put(out, if told.is_empty() { "" } else { " " })?;
    put_agreement(alloc, out, told.as_slice(), text)?;
    Ok(())
}

fn lines_of(alloc: Global, row: &[u8]) -> Result<Vec<Vec<u8>>, AllocError> {
    let mut lines = Vec::new(alloc);
    let mut line = Vec::new(alloc);
    for byte in row {
        if *byte == 10 {
            lines.push(line)?;
            line = Vec::new(alloc);
        } else {
            line.push(*byte)?;
        }
    }
    lines.push(line)?;
    Ok(lines)
}

fn pair_agrees(alloc: Global, first: &[u8], second: &[u8]) -> Result<bool, AllocError> {
    let end = b"\n      END\n".as_slice();
    let text = [first, b"\n".as_slice(), second, end].concat(alloc)?;
    let told = read(alloc, text.as_slice())?;
    agrees(alloc, told.as_slice(), text.as_slice())
}

fn put_pairs(
    alloc: Global,
    out: &mut Vec<u8>,
    first: &[u8],
    lines: &[Vec<u8>],
) -> Result<(), AllocError> {
    let mut agreeing: u64 = 0;
    for second in lines {
        if pair_agrees(alloc, first, second.as_slice())? {
            agreeing = agreeing.saturating_add(1);
        }
    }
    put_number(alloc, out, agreeing)?;
    put(out, " ")
}

/// The texts of two of the lines and an END line: for each first line, how many are read as a slow reading does.
pub fn pairs(alloc: Global, out: &mut Vec<u8>, row: &[u8]) -> Result<(), Refused> {
    let lines = lines_of(alloc, row)?;
    for first in lines.as_slice() {
        put_pairs(alloc, out, first.as_slice(), lines.as_slice())?;
    }
    put(out, "agree")?;
    Ok(())
}

/// Which of the units behind the first have the source of the first.
pub fn same(alloc: Global, out: &mut Vec<u8>, text: &[u8]) -> Result<(), Refused> {
    let units = read_units(alloc, text)?;
    let Some((first, others)) = units.as_slice().split_first() else {
        return Ok(());
    };
    let mut before = "";
    for other in others {
        put(out, before)?;
        put(
            out,
            if same_source(first, other) {
                "same"
            } else {
                "other"
            },
        )?;
        before = " ";
    }
    Ok(())
}

//! The trees of units.
use super::cards::{tree_of, unit_by_lines, units_of};
use f77_parse::{ends_by_end, parse_unit};
use f77_tree::{Refused, Unit, weight};
use fixed_form::UnitText;
use std::alloc::{AllocError, Global};
use table_rows::{put, put_head, put_number};

fn put_parsed(alloc: Global, out: &mut Vec<u8>, tree: &Unit) -> Result<(), AllocError> {
    put_head(out, tree.kind, None, &tree.name, &tree.dummies)?;
    put(out, ": tokens ")?;
    put_number(alloc, out, tree.tokens as u64)?;
    put(out, " statements ")?;
    put_number(alloc, out, tree.statements.len() as u64)
}

fn put_unit(alloc: Global, out: &mut Vec<u8>, unit: &UnitText) -> Result<(), Refused> {
    if !ends_by_end(unit) {
        put(out, "no END")?;
        return Ok(());
    }
    let tree = parse_unit(alloc, unit)?;
    put_parsed(alloc, out, &tree)?;
    Ok(())
}

/// The head of each unit with its tokens and its statements, or the first fault of the statements.
pub fn parsed(alloc: Global, out: &mut Vec<u8>, row: &[u8]) -> Result<(), Refused> {
    let units = units_of(alloc, row)?;
    for unit in units.as_slice() {
        put_unit(alloc, out, unit)?;
    }
    Ok(())
}

/// The same of a unit whose statements have their lines before them.
pub fn lines(alloc: Global, out: &mut Vec<u8>, row: &[u8]) -> Result<(), Refused> {
    let unit = unit_by_lines(alloc, row)?;
    put_unit(alloc, out, &unit)
}

fn weight_of_copy(alloc: Global, tree: &Unit) -> Result<u64, AllocError> {
    Ok(weight(&tree.copy(alloc)?))
}

fn put_weight(alloc: Global, out: &mut Vec<u8>, tree: &Unit) -> Result<(), AllocError> {
    put_number(alloc, out, weight(tree))?;
    put(out, " copy ")?;
    put_number(alloc, out, weight_of_copy(alloc, tree)?)
}

/// The weight of a unit, and of a copy of it.
pub fn weights(alloc: Global, out: &mut Vec<u8>, row: &[u8]) -> Result<(), Refused> {
    let units = units_of(alloc, row)?;
    for unit in units.as_slice() {
        match tree_of(alloc, unit)? {
            Some(tree) => put_weight(alloc, out, &tree)?,
            None => put(out, "no form")?,
        }
    }
    Ok(())
}

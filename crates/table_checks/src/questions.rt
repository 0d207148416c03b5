//! What may be asked of a row.
use super::cards::{tree_of, units_of};
use super::{checks, flows, storage, units};
use f77_tree::{Refused, Unit};
use fixed_form::UnitText;
use std::alloc::{AllocError, Global};
use table_rows::{expanded, put, put_refusal};

/// Questions about the tree of a unit.
fn put_of_tree(
    alloc: Global,
    out: &mut Vec<u8>,
    question: &str,
    tree: &Unit,
) -> Result<(), AllocError> {
    match question {
        "@layouts" => storage::put_layout(alloc, out, tree),
        "@roles" => storage::put_roles(alloc, out, tree),
        "@flows" => flows::put_flow(alloc, out, tree),
        "@control" => flows::put_control(alloc, out, tree),
        "@faults of names" => checks::put_names_fault(alloc, out, tree),
        "@faults of types" => checks::put_types_fault(alloc, out, tree),
        "@faults of jumps" => checks::put_jumps_fault(alloc, out, tree),
        _ => put(out, "no such question"),
    }
}

fn put_of_unit(
    alloc: Global,
    out: &mut Vec<u8>,
    question: &str,
    unit: &UnitText,
) -> Result<(), AllocError> {
    match tree_of(alloc, unit)? {
        Some(tree) => put_of_tree(alloc, out, question, &tree),
        None => put(out, "no form"),
    }
}

fn of_units(alloc: Global, out: &mut Vec<u8>, question: &str, text: &[u8]) -> Result<(), Refused> {
    let units = units_of(alloc, text)?;
    for unit in units.as_slice() {
        put_of_unit(alloc, out, question, unit)?;
    }
    Ok(())
}

/// Questions about statements and programs.
fn of_statements(
    alloc: Global,
    out: &mut Vec<u8>,
    question: &str,
    text: &[u8],
) -> Result<(), Refused> {
    match question {
        "@parsed" => units::parsed(alloc, out, text),
        "@lines" => units::lines(alloc, out, text),
        "@weights" => units::weights(alloc, out, text),
        "@constants" => Ok(storage::put_constant(alloc, out, text)?),
        "@faults of units" => checks::unit_checks(alloc, out, text),
        "@faults of programs" => checks::program_checks(alloc, out, text),
        _ => of_units(alloc, out, question, text),
    }
}

/// The answer to a question about a row.
pub fn answer(alloc: Global, question: &str, row: &[u8]) -> Result<Vec<u8>, AllocError> {
    let mut out = Vec::new(alloc);
    let text = expanded(alloc, row)?;
    if let Err(refused) = of_statements(alloc, &mut out, question, text.as_slice()) {
        put_refusal(alloc, &mut out, &refused)?;
    }
    Ok(out)
}

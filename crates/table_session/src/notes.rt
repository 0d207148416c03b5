//! The notes of a call.
use rn_ports::{Kind, ListTally};
use std::alloc::{AllocError, Global};
use table_notation::shown;

fn push_kind(alloc: Global, found: &mut String, kind: Kind) -> Result<(), AllocError> {
    match kind {
        Kind::Compile => found.push_str(" compile "),
        Kind::Evaluate(analysis) => {
            let told = format!(in alloc; " evaluate {analysis} ")?;
            found.push_str(told.as_str())
        }
        Kind::Trial => found.push_str(" trial "),
    }
}

/// What was done, and to which unit, one after another.
pub(crate) fn notes_of(alloc: Global, tally: &ListTally) -> Result<String, AllocError> {
    let mut found = String::from_str(alloc, "notes")?;
    for k in 0..tally.count() {
        push_kind(alloc, &mut found, tally.kind_at(k))?;
        let unit = shown(alloc, tally.unit_at(k))?;
        found.push_str(unit.as_str())?;
    }
    Ok(found)
}

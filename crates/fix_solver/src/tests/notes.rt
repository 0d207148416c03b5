//! The notes of evaluations.

use rn_ports::{Kind, ListTally};

/// Whether the notes are of evaluations of these nodes: where there are to be no more than nodes, of each in its turn, and else of more,
/// up to this many.
pub fn are_noted(tally: &ListTally, analysis: u8, names: &[&str], most: usize) -> bool {
    for k in 0..tally.count() {
        let is_in_turn = names
            .get(k)
            .is_some_and(|name| name.as_bytes() == tally.unit_at(k));
        if tally.kind_at(k) != Kind::Evaluate(analysis) || !is_one_of(tally.unit_at(k), names) {
            return false;
        }
        if most == names.len() && !is_in_turn {
            return false;
        }
    }
    if most == names.len() {
        tally.count() == most
    } else {
        names.len() < tally.count() && tally.count() <= most
    }
}

fn is_one_of(unit: &[u8], names: &[&str]) -> bool {
    names.iter().any(|name| name.as_bytes() == unit)
}

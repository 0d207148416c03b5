ghost use Rattle.std.specs.Prelude.{◌≡◌, List, ◌+◌, ◌++◌, All, length, map, IfOk, OnOk};
ghost use Rattle.std.specs.List.{range_with_len};
ghost use Rattle.fix_solver.specs.Systems.{IsSolution, IsBelow, IsOrderly, edge_sum};
ghost use Rattle.fix_solver.specs.Noting.{NotesEvaluations};

use crate::System;
use crate::readers::readers_of;
use crate::worklist::Worklist;
use rn_lattice::Lattice;
use rn_ports::{Kind, Tally};
use std::alloc::{AllocError, Global};

/// The least solution, among the lists of values that fit the nodes.
///
/// Each evaluation is noted with the node's name. There are at most as many as nodes and, over all edges, the rank of the bottom of the
/// edge's source; and one for each node where each source has a smaller number than its node.
pub fn solve<S: System, T: Tally>(
    alloc: Global,
    system: &S,
    analysis: u8,
    tally: &mut T,
) -> Result<Vec<S::Value>, AllocError>
    ensures known { OnOk result (S.is_system system.now) }
    ensures solution { IfOk result (λ values. IsSolution S.Value.is_value (S.fits system.now) (S.nodes system.now) (S.evaluate system.now) values.items) }
    ensures least { IfOk result (λ values. (others : _) → IsSolution S.Value.is_value (S.fits system.now) (S.nodes system.now) (S.evaluate system.now) others → IsBelow S.Value.leq (S.nodes system.now) values.items others) }
    ensures notes { NotesEvaluations (λ n. (Kind.Evaluate analysis, S.name system.now n)) (S.nodes system.now) (S.nodes system.now + edge_sum (λ m. S.rank system.now m S.Value.bottom) (S.nodes system.now) (S.sources system.now)) (T.notes tally.old) (T.notes tally.new) }
    ensures once { OnOk result (IsOrderly (S.nodes system.now) (S.sources system.now) → T.notes tally.new ≡ T.notes tally.old ++ map (λ n. (Kind.Evaluate analysis, S.name system.now n)) (range_with_len 0 (S.nodes system.now))) }
{
    let readers = readers_of(alloc, system)?;
    let mut values = bottoms(alloc, system.nodes())?;
    let mut waiting = Worklist::all(alloc, system.nodes())?;
    while let Some(node) = waiting.next() {
        tally.note(alloc, Kind::Evaluate(analysis), system.name(node))?;
        let value = system.evaluate(alloc, node, &values)?;
        if values[node].join(alloc, &value)? {
            waiting.add_all(&readers[node])?;
        }
    }
    Ok(values)
}

// The bottom for each node.
fn bottoms<L: Lattice + Drop>(alloc: Global, nodes: usize) -> Result<Vec<L>, AllocError>
    ensures count { IfOk result (λ values. length values.items ≡ nodes) }
    ensures bottoms { IfOk result (λ values. All (λ value. value ≡ L.bottom) values.items) }
{
    let mut values = Vec::new(alloc);
    for _ in 0..nodes {
        values.push(L::bottom(alloc)?)?;
    }
    Ok(values)
}

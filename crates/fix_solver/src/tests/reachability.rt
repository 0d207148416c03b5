//! Which nodes a start leads to.
ghost use Rattle.std.specs.Prelude.{◌≡◌, ℕ, ◌+◌, ◌<◌, ◌↔◌, List, ◌++◌, Bool, ◌||◌, IsTrue, length, map, nat_eq, slice_index_or, IfOk, OnOk};
ghost use Rattle.std.specs.List.{range_with_len};
ghost use Rattle.fix_solver.specs.Systems.{IsOrderly, edge_sum};
ghost use Rattle.fix_solver.specs.Noting.{NotesEvaluations};
ghost use Rattle.fix_solver.specs.Graphs.{IsGraph, name_of, sources_of, Leads};
ghost use Rattle.fix_solver.specs.Gathering.{gather_at};
ghost use Rattle.fix_solver.specs.Reachability.{IsTold, rises_left};
ghost use Rattle.fix_solver.specs.ReachabilityLaws.{reach_laws};

use super::flag::Flag;
use super::gathered::gathered;
use super::graph::{Graph, graph_of};
use super::notes::are_noted;
use crate::{System, solve};
use rn_ports::{Kind, ListTally, Tally};
use std::alloc::{AllocError, Global};
use std::test::Fail;

/// A graph, and the node that the chains of edges begin at.
#[derive(Drop)]
pub struct Reachability {
    pub graph: Graph,
    pub start: usize,
}

impl System for Reachability {
    type Value = Flag;

    ghost is_system = { λ s. IsGraph s.graph };

    ghost nodes = { λ s. length s.graph };

    ghost name = { λ s. name_of s.graph };

    ghost sources = { λ s. sources_of s.graph };

    ghost evaluate = { λ s. gather_at (λ x y. x || y) (λ n. nat_eq n s.start) (sources_of s.graph) };

    ghost fits = { λ s. IsTold (sources_of s.graph) s.start };

    ghost rank = { λ s n. rises_left };

    fn nodes(&self) -> usize {
        self.graph.count()
    }

    fn name(&self, node: usize) -> &[u8] {
        self.graph.name(node)
    }

    fn sources(&self, node: usize) -> &[usize] {
        self.graph.sources(node)
    }

    fn evaluate(&self, alloc: Global, node: usize, values: &[Flag]) -> Result<Flag, AllocError> {
        let own = Flag::new(node == self.start);
        gathered(alloc, own, self.graph.sources(node), values)
    }

    ghost laws = { λ s. reach_laws s.graph s.start };
}

/// For each node, whether a chain of edges leads to it from the start.
pub fn reached<T: Tally>(
    alloc: Global,
    system: &Reachability,
    tally: &mut T,
) -> Result<Vec<Flag>, AllocError>
    ensures count { IfOk result (λ flags. length flags.items ≡ length system.now.graph) }
    ensures exactly { IfOk result (λ flags. (n : ℕ) (d : Bool) → n < length system.now.graph → IsTrue (slice_index_or flags.items n d) ↔ Leads (sources_of system.now.graph) system.now.start n) }
    // At most as many evaluations as nodes and edges.
    ensures notes { NotesEvaluations (λ n. (Kind.Evaluate 1, name_of system.now.graph n)) (length system.now.graph) (length system.now.graph + edge_sum (λ _. 1) (length system.now.graph) (sources_of system.now.graph)) (T.notes tally.old) (T.notes tally.new) }
    ensures once { OnOk result (IsOrderly (length system.now.graph) (sources_of system.now.graph) → T.notes tally.new ≡ T.notes tally.old ++ map (λ n. (Kind.Evaluate 1, name_of system.now.graph n)) (range_with_len 0 (length system.now.graph))) }
{
    solve(alloc, system, 1, tally)
}

// 1 for each node that is reached, and 0 for the others.
fn digits(alloc: Global, flags: &[Flag]) -> Result<Vec<u8>, AllocError> {
    flags
        .iter()
        .map(|flag| if flag.is_on() { b'1' } else { b'0' })
        .collect(alloc)
}

// The names, the edges, the start, which nodes are reached, and how many evaluations there are at most.
static CASES: [(&[&str], &[(usize, usize)], usize, &str, usize); 8] = [
    (&[], &[], 0, "", 0),
    (&["A", "B", "C"], &[], 1, "010", 3),
    (
        &["A", "B", "C", "D"],
        &[(0, 1), (0, 2), (1, 3), (2, 3)],
        1,
        "0101",
        4,
    ),
    (&["A", "B"], &[(0, 0)], 0, "10", 3),
    (&["A", "B"], &[(0, 0), (1, 1), (1, 1)], 1, "01", 5),
    (&["A", "B", "C"], &[(2, 1), (1, 0)], 2, "111", 5),
    (&["A", "B", "C"], &[(0, 1), (1, 2), (2, 0)], 2, "111", 6),
    (
        &["A", "B", "C", "D"],
        &[(0, 1), (1, 0), (2, 3), (3, 2), (3, 3)],
        0,
        "1100",
        9,
    ),
];

#[test]
fn reaches_along_edges(rt: HostRuntime) -> Result<(), Fail> {
    let alloc = rt.alloc();
    for (names, edges, start, wanted, most) in &CASES {
        let graph = graph_of(alloc, names, edges)?;
        let mut tally = ListTally::new(alloc)?;
        let flags = reached(
            alloc,
            &Reachability {
                graph,
                start: *start,
            },
            &mut tally,
        )?;
        assert_eq!(rt; digits(alloc, &flags)?.as_slice(), wanted.as_bytes());
        assert!(rt;
            are_noted(&tally, 1, names, *most),
            "from {start} to {wanted}"
        );
    }
    Ok(())
}

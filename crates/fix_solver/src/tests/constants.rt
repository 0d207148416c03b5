//! The numbers that come to nodes along edges.
ghost use Rattle.std.specs.Prelude.{◌≡◌, ℕ, ◌+◌, ◌<◌, List, ◌++◌, length, map, slice_index_or, IfOk, OnOk};
ghost use Rattle.std.specs.List.{range_with_len};
ghost use Rattle.rn_lattice.specs.declared.dual.Dual.{Dual};
ghost use Rattle.rn_lattice.specs.declared.flat.Flat.{Flat};
ghost use Rattle.fix_solver.specs.Systems.{IsOrderly, edge_sum};
ghost use Rattle.fix_solver.specs.Noting.{NotesEvaluations};
ghost use Rattle.fix_solver.specs.Graphs.{IsGraph, name_of, sources_of};
ghost use Rattle.fix_solver.specs.Gathering.{gather_at};
ghost use Rattle.fix_solver.specs.Constants.{given_at, IsTold, IsMeeting, meet, falls_left};
ghost use Rattle.fix_solver.specs.ConstantLaws.{constant_laws};

use super::gathered::gathered;
use super::graph::{Graph, graph_of};
use super::notes::are_noted;
use crate::{System, solve};
use rn_lattice::{Dual, Flat};
use rn_ports::{Kind, ListTally, Tally};
use std::alloc::{AllocError, Global};
use std::test::Fail;

/// A graph, and for each node the number that is given there, if one is.
#[derive(Drop)]
pub struct GivenNumbers {
    pub graph: Graph,
    pub given: Vec<Option<u8>>,
}

impl GivenNumbers {
    // What is given at the node: a number, or nothing.
    fn given_at(&self, node: usize) -> Dual<Flat<u8>>
        ensures { result ≡ given_at self.now.given.items node }
    {
        let inner = match self.given.get(node) {
            Some(Some(number)) => Flat::Is(*number),
            _ => Flat::Top,
        };
        Dual { inner }
    }
}

impl System for GivenNumbers {
    type Value = Dual<Flat<u8>>;

    ghost is_system = { λ s. IsGraph s.graph };

    ghost nodes = { λ s. length s.graph };

    ghost name = { λ s. name_of s.graph };

    ghost sources = { λ s. sources_of s.graph };

    ghost evaluate = { λ s. gather_at meet (given_at s.given.items) (sources_of s.graph) };

    ghost fits = { λ s n v. IsTold (sources_of s.graph) s.given.items n v.inner };

    ghost rank = { λ s n v. falls_left v.inner };

    fn nodes(&self) -> usize {
        self.graph.count()
    }

    fn name(&self, node: usize) -> &[u8] {
        self.graph.name(node)
    }

    fn sources(&self, node: usize) -> &[usize] {
        self.graph.sources(node)
    }

    fn evaluate(
        &self,
        alloc: Global,
        node: usize,
        values: &[Dual<Flat<u8>>],
    ) -> Result<Dual<Flat<u8>>, AllocError> {
        let own = self.given_at(node);
        gathered(alloc, own, self.graph.sources(node), values)
    }

    ghost laws = { λ s. constant_laws s.graph s.given.items };
}

/// For each node the meet of the numbers that come to it.
pub fn constants<T: Tally>(
    alloc: Global,
    system: &GivenNumbers,
    tally: &mut T,
) -> Result<Vec<Dual<Flat<u8>>>, AllocError>
    ensures count { IfOk result (λ values. length values.items ≡ length system.now.graph) }
    ensures meets { IfOk result (λ values. (n : ℕ) (d : Dual (Flat ℕ)) → n < length system.now.graph → IsMeeting (sources_of system.now.graph) system.now.given.items n (slice_index_or values.items n d).inner) }
    // At most as many evaluations as nodes, and two for each edge.
    ensures notes { NotesEvaluations (λ n. (Kind.Evaluate 2, name_of system.now.graph n)) (length system.now.graph) (length system.now.graph + edge_sum (λ _. 2) (length system.now.graph) (sources_of system.now.graph)) (T.notes tally.old) (T.notes tally.new) }
    ensures once { OnOk result (IsOrderly (length system.now.graph) (sources_of system.now.graph) → T.notes tally.new ≡ T.notes tally.old ++ map (λ n. (Kind.Evaluate 2, name_of system.now.graph n)) (range_with_len 0 (length system.now.graph))) }
{
    solve(alloc, system, 2, tally)
}

// A digit for each number below 10, a point for nothing, and a star for what is no single number.
fn digits(alloc: Global, values: &[Dual<Flat<u8>>]) -> Result<Vec<u8>, AllocError> {
    values
        .iter()
        .map(|value| match value.inner {
            Flat::Top => b'.',
            Flat::Is(number) => b'0' + number % 10,
            Flat::Bottom => b'*',
        })
        .collect(alloc)
}

// The numbers of a text of digits and points.
fn numbers(alloc: Global, digits: &str) -> Result<Vec<Option<u8>>, AllocError> {
    digits
        .as_bytes()
        .iter()
        .map(|digit| digit.checked_sub(b'0'))
        .collect(alloc)
}

// The names, the edges, the numbers that are given, those that come, and how many evaluations there are at most. In a loop that no
// number enters there is nothing.
static CASES: [(&[&str], &[(usize, usize)], &str, &str, usize); 11] = [
    (&[], &[], "", "", 0),
    (&["A", "B", "C"], &[], "7.3", "7.3", 3),
    (
        &["A", "B", "C", "D"],
        &[(0, 1), (0, 2), (1, 3), (2, 3)],
        "7...",
        "7777",
        4,
    ),
    (
        &["A", "B", "C", "D"],
        &[(0, 1), (0, 2), (1, 3), (2, 3)],
        ".73.",
        ".73*",
        4,
    ),
    (
        &["A", "B", "C", "D"],
        &[(0, 1), (0, 2), (1, 3), (2, 3)],
        ".77.",
        ".777",
        4,
    ),
    (&["A"], &[(0, 0)], "5", "5", 3),
    (&["A", "B"], &[(1, 1), (0, 0)], ".2", ".2", 6),
    (&["A", "B", "C"], &[(2, 1), (1, 0)], "..4", "444", 7),
    (&["A", "B", "C"], &[(0, 1), (1, 2), (2, 0)], "5..", "555", 9),
    (&["A", "B", "C"], &[(0, 1), (1, 2), (2, 0)], "5.6", "***", 9),
    (
        &["A", "B", "C", "D"],
        &[(0, 1), (1, 2), (2, 1), (2, 3)],
        "4..5",
        "444*",
        12,
    ),
];

#[test]
fn numbers_meet_along_edges(rt: HostRuntime) -> Result<(), Fail> {
    let alloc = rt.alloc();
    for (names, edges, given, wanted, most) in &CASES {
        let system = GivenNumbers {
            graph: graph_of(alloc, names, edges)?,
            given: numbers(alloc, given)?,
        };
        let mut tally = ListTally::new(alloc)?;
        let values = constants(alloc, &system, &mut tally)?;
        assert_eq!(rt; digits(alloc, &values)?.as_slice(), wanted.as_bytes());
        assert!(rt;
            are_noted(&tally, 2, names, *most),
            "from {given} to {wanted}"
        );
    }
    Ok(())
}

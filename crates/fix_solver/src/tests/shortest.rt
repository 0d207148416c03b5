//! For each letter the shortest name that comes to a node along edges.
ghost use Rattle.std.specs.Prelude.{◌≡◌, ℕ, ◌+◌, ◌<◌, List, ◌++◌, length, map, slice_index_or, IfOk, OnOk};
ghost use Rattle.std.specs.List.{range_with_len};
ghost use Rattle.rn_lattice.specs.declared.dual.Dual.{Dual};
ghost use Rattle.fix_solver.specs.Systems.{IsOrderly, edge_sum};
ghost use Rattle.fix_solver.specs.Noting.{NotesEvaluations};
ghost use Rattle.fix_solver.specs.Graphs.{IsGraph, name_of, sources_of};
ghost use Rattle.fix_solver.specs.Gathering.{gather_at};
ghost use Rattle.fix_solver.specs.Shortest.{at, letter_of, own_at, shorter, IsTold, IsShortest, falls_left};
ghost use Rattle.fix_solver.specs.ShortestLaws.{shortest_laws};

use super::gathered::gathered;
use super::graph::{Graph, graph_of};
use super::length::Length;
use super::notes::are_noted;
use crate::{System, solve};
use rn_lattice::{Dual, Keyed};
use rn_ports::{Kind, ListTally, Tally};
use std::alloc::{AllocError, Global};
use std::test::Fail;

/// A length for each letter, by its number in the alphabet. 255 is that of no name.
pub type Lengths = Keyed<u8, Dual<Length>>;

/// A graph whose nodes' names go along its edges.
#[derive(Drop)]
pub struct Names {
    pub graph: Graph,
}

impl Names {
    // The node's name alone, at its first letter.
    fn own(&self, alloc: Global, node: usize) -> Result<Lengths, AllocError>
        requires { node < length self.now.graph }
        ensures { IfOk result (λ own. own ≡ own_at self.now.graph node) }
    {
        let name = self.graph.name(node);
        let letter = letter_of(name);
        let inner = Length::of(name);
        let mut own = Keyed::new(alloc);
        own.raise(alloc, &letter, &Dual { inner })?;
        Ok(own)
    }
}

// The number of the name's first letter in the alphabet.
fn letter_of(name: &[u8]) -> u8
    ensures { result ≡ letter_of name.now }
{
    name.first().copied().unwrap_or(0) % 32
}

impl System for Names {
    type Value = Lengths;

    ghost is_system = { λ s. IsGraph s.graph };

    ghost nodes = { λ s. length s.graph };

    ghost name = { λ s. name_of s.graph };

    ghost sources = { λ s. sources_of s.graph };

    ghost evaluate = { λ s. gather_at shorter (own_at s.graph) (sources_of s.graph) };

    ghost fits = { λ s. IsTold s.graph };

    ghost rank = { λ s n. falls_left };

    fn nodes(&self) -> usize {
        self.graph.count()
    }

    fn name(&self, node: usize) -> &[u8] {
        self.graph.name(node)
    }

    fn sources(&self, node: usize) -> &[usize] {
        self.graph.sources(node)
    }

    fn evaluate(
        &self,
        alloc: Global,
        node: usize,
        values: &[Lengths],
    ) -> Result<Lengths, AllocError> {
        let own = self.own(alloc, node)?;
        gathered(alloc, own, self.graph.sources(node), values)
    }

    ghost laws = { λ s. shortest_laws s.graph };
}

/// For each node and letter the least length of the names that come there and begin with the letter.
pub fn shortest<T: Tally>(
    alloc: Global,
    system: &Names,
    tally: &mut T,
) -> Result<Vec<Lengths>, AllocError>
    ensures count { IfOk result (λ values. length values.items ≡ length system.now.graph) }
    ensures shortest { IfOk result (λ values. (n letter : ℕ) (d : List (ℕ × Dual ℕ)) → n < length system.now.graph → IsShortest system.now.graph n letter (at (slice_index_or values.items n d) letter)) }
    // At most as many evaluations as nodes, and for each edge 255 at each of 32 letters.
    ensures notes { NotesEvaluations (λ n. (Kind.Evaluate 3, name_of system.now.graph n)) (length system.now.graph) (length system.now.graph + edge_sum (λ _. 8160) (length system.now.graph) (sources_of system.now.graph)) (T.notes tally.old) (T.notes tally.new) }
    ensures once { OnOk result (IsOrderly (length system.now.graph) (sources_of system.now.graph) → T.notes tally.new ≡ T.notes tally.old ++ map (λ n. (Kind.Evaluate 3, name_of system.now.graph n)) (range_with_len 0 (length system.now.graph))) }
{
    solve(alloc, system, 3, tally)
}

// Each letter with its length, node after node.
fn told(alloc: Global, values: &[Lengths]) -> Result<Vec<u8>, AllocError> {
    let mut text = Vec::new(alloc);
    for lengths in values {
        for (letter, length) in lengths.iter() {
            text.push(b'@' + letter % 32)?;
            text.push(b'0' + length.inner.count() % 10)?;
        }
        text.push(b' ')?;
    }
    Ok(text)
}

// The names, the edges, each letter with the shortest length at each node, and how many evaluations there are at most.
static CASES: [(&[&str], &[(usize, usize)], &str, usize); 7] = [
    (&[], &[], "", 0),
    (&["AB", "c"], &[], "A2 C1 ", 2),
    (
        &["ALPHA", "AXE", "BETA", "A"],
        &[(0, 1), (0, 2), (1, 3), (2, 3)],
        "A5 A3 A5B4 A1B4 ",
        4,
    ),
    (&["AXE"], &[(0, 0)], "A3 ", 8161),
    (
        &["ALPHA", "AXE", "BETA"],
        &[(0, 1), (1, 2), (2, 0)],
        "A3B4 A3B4 A3B4 ",
        24483,
    ),
    (
        &["LONGER", "LONG", "SHORT", "SO"],
        &[(0, 1), (1, 0), (1, 2), (2, 3), (3, 2)],
        "L4 L4 L4S2 L4S2 ",
        40804,
    ),
    (
        &["ONE", "TWO", "O"],
        &[(2, 0), (0, 1), (1, 1)],
        "O1 O1T3 O1 ",
        24483,
    ),
];

#[test]
fn shortest_names_come_along_edges(rt: HostRuntime) -> Result<(), Fail> {
    let alloc = rt.alloc();
    for (names, edges, wanted, most) in &CASES {
        let graph = graph_of(alloc, names, edges)?;
        let mut tally = ListTally::new(alloc)?;
        let values = shortest(alloc, &Names { graph }, &mut tally)?;
        assert_eq!(rt; told(alloc, &values)?.as_slice(), wanted.as_bytes());
        assert!(rt; are_noted(&tally, 3, names, *most), "{wanted}");
    }
    Ok(())
}

//! Graphs of named nodes.
ghost use Rattle.std.specs.Prelude.{◌≡◌, ℕ, ◌<◌, ◌↔◌, IsTrue, All, length};
ghost use Rattle.fix_solver.specs.Graphs.{IsGraph, name_of, sources_of};

use std::alloc::Global;
use std::marker::Model;
use std::test::Fail;

/// A node, by its name and the nodes from which an edge leads to it.
#[derive(Drop)]
pub struct Node {
    pub name: Vec<u8>,
    pub sources: Vec<usize>,
}

/// Nodes that are numbered from 0: seen as the name and the sources of each.
#[derive(Drop)]
pub struct Graph {
    nodes: Vec<Node>,
}

impl Model for Graph {
    ghost use Rattle.std.specs.Prelude.{ℕ, List, map};
    ghost use Rattle.fix_solver.specs.Graphs.{IsGraph};

    ghost Value = { List (List ℕ × List ℕ) };

    ghost view = { λ g. map (λ n. (n.name.items, n.sources.items)) g.nodes.items };

    ghost invariant = { λ g. IsGraph (map (λ n. (n.name.items, n.sources.items)) g.nodes.items) };
}

impl Graph {
    /// The graph of these nodes, where each edge comes from one of them.
    pub fn new(nodes: Vec<Node>) -> Option<Graph> {
        if have_sources_below(&nodes, nodes.len()) {
            Some(Graph { nodes })
        } else {
            None
        }
    }

    /// How many nodes there are.
    pub fn count(&self) -> usize
        ensures known { IsGraph self.now }
        ensures count { result ≡ length self.now }
    {
        self.nodes.len()
    }

    /// The node's name.
    pub fn name(&self, node: usize) -> &[u8]
        requires { node < length self.now }
        ensures { result.now ≡ name_of self.now node }
    {
        &self.nodes[node].name
    }

    /// The nodes from which an edge leads to the node.
    pub fn sources(&self, node: usize) -> &[usize]
        requires { node < length self.now }
        ensures sources { result.now ≡ sources_of self.now node }
        ensures known { IsGraph self.now }
    {
        &self.nodes[node].sources
    }
}

/// The graph of nodes with these names, and edges from the first of each pair to the second.
pub fn graph_of(alloc: Global, names: &[&str], edges: &[(usize, usize)]) -> Result<Graph, Fail> {
    let mut nodes = Vec::new(alloc);
    for (number, name) in names.iter().enumerate() {
        let mut sources = Vec::new(alloc);
        for (from, to) in edges {
            if *to == number {
                sources.push(*from)?;
            }
        }
        nodes.push(Node {
            name: Vec::from_slice(alloc, name.as_bytes())?,
            sources,
        })?;
    }
    Ok(Graph::new(nodes).ok_or("an edge from nowhere")?)
}

// Whether the sources of each are below the count.
fn have_sources_below(nodes: &[Node], count: usize) -> bool
    ensures { IsTrue result ↔ All (λ n. All (λ m. m < count) n.sources.items) nodes.now }
{
    nodes.iter().all(|node| are_below(&node.sources, count))
}

// Whether each is below the count.
fn are_below(nodes: &[usize], count: usize) -> bool
    ensures { IsTrue result ↔ All (λ n. n < count) nodes.now }
{
    nodes.iter().all(|node| *node < count)
}

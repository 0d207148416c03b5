ghost use Rattle.std.specs.Prelude.{◌≡◌, ◌<◌, [], ◌∷◌, fold, All, IfOk, OnOk, IfNone, IfSome};
ghost use Rattle.std.specs.List.{range_with_len};
ghost use Rattle.fix_solver.specs.Worklists.{with_node};

use std::alloc::{AllocError, Global};
use std::collections::VecDeque;
use std::marker::Model;

/// The nodes that wait, in the order in which they came, none of them twice: seen as how many nodes there are, and those that wait.
#[derive(Drop)]
pub struct Worklist {
    marks: Vec<bool>,
    queue: VecDeque<usize>,
}

impl Model for Worklist {
    ghost use Rattle.std.specs.Prelude.{ℕ, List, length};
    ghost use Rattle.fix_solver.specs.Worklists.{IsWorklist};

    ghost Value = { ℕ × List ℕ };

    ghost view = { λ w. (length w.marks.items, w.queue.items) };

    ghost invariant = { λ w. IsWorklist w.marks.items w.queue.items };
}

impl Worklist {
    /// Each of the nodes waits, in the order of their numbers.
    pub fn all(alloc: Global, nodes: usize) -> Result<Self, AllocError>
        ensures { IfOk result (λ it. it ≡ (nodes, range_with_len 0 nodes)) }
    {
        let mut all = Worklist {
            marks: vec![in alloc; false; nodes]?,
            queue: VecDeque::new(alloc),
        };
        for node in 0..nodes {
            all.add(node)?;
        }
        Ok(all)
    }

    /// Takes the node that came first.
    pub fn next(&mut self) -> Option<usize>
        ensures count { self.new.0 ≡ self.old.0 }
        ensures none { IfNone result (self.old.1 ≡ []) }
        ensures first { IfSome result (λ node. self.old.1 ≡ node ∷ self.new.1) }
        ensures in_range { IfSome result (λ node. node < self.old.0) }
    {
        let node = self.queue.pop_front()?;
        self.marks[node] = false;
        Some(node)
    }

    /// Lets the node wait.
    pub fn add(&mut self, node: usize) -> Result<(), AllocError>
        requires { node < self.old.0 }
        ensures ok { OnOk result (self.new ≡ (self.old.0, with_node self.old.1 node)) }
    {
        if !self.marks[node] {
            self.queue.push_back(node)?;
            self.marks[node] = true;
        }
        Ok(())
    }

    /// Lets the nodes wait.
    pub fn add_all(&mut self, nodes: &[usize]) -> Result<(), AllocError>
        requires { All (λ n. n < self.old.0) nodes.now }
        ensures ok { OnOk result (self.new ≡ (self.old.0, fold with_node self.old.1 nodes.now)) }
    {
        for node in nodes {
            self.add(*node)?;
        }
        Ok(())
    }
}

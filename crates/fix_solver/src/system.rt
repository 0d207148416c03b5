ghost use Rattle.std.specs.Prelude.{◌≡◌, ℕ, ◌<◌, List, IfOk};
ghost use Rattle.fix_solver.specs.Systems.{IsSystem, IsFitting};

use rn_lattice::Lattice;
use std::alloc::{AllocError, Global};

/// An equation for each node, which gives its value of the values of its sources. Nodes are numbered from 0.
pub trait System {
    /// The lattice of the values.
    type Value: Lattice + Drop;

    // Holds of the systems of the type.
    ghost is_system: { Self → Type 0 };
    // How many nodes there are.
    ghost nodes: { Self → ℕ };
    // The node's name.
    ghost name: { Self → ℕ → List ℕ };
    // The nodes whose values the node's equation reads.
    ghost sources: { Self → ℕ → List ℕ };
    // What the node's equation gives of the values of all nodes.
    ghost evaluate: { Self → ℕ → List Self.Value → Self.Value };
    // Holds of the values that the node may have.
    ghost fits: { Self → ℕ → Self.Value → Type 0 };
    // How often a value of the node may still rise, at most.
    ghost rank: { Self → ℕ → Self.Value → ℕ };

    /// How many nodes there are.
    fn nodes(&self) -> usize
        ensures known { is_system self.now }
        ensures count { result ≡ nodes self.now };

    /// The node's name.
    fn name(&self, node: usize) -> &[u8]
        requires { node < nodes self.now }
        ensures { result.now ≡ name self.now node };

    /// The nodes whose values the node's equation reads.
    fn sources(&self, node: usize) -> &[usize]
        requires { node < nodes self.now }
        ensures { result.now ≡ sources self.now node };

    /// What the node's equation gives of the values of all nodes.
    fn evaluate(
        &self,
        alloc: Global,
        node: usize,
        values: &[Self::Value],
    ) -> Result<Self::Value, AllocError>
        requires node { node < nodes self.now }
        requires values { IsFitting Self.Value.is_value (fits self.now) (nodes self.now) values.now }
        ensures { IfOk result (λ value. value ≡ evaluate self.now node values.now) };

    // Values that fit can rise only so far, and the equations are monotone in the values of the sources.
    ghost laws: { (s : Self) → is_system s → IsSystem Self.Value.is_value Self.Value.leq Self.Value.bottom (nodes s) (sources s) (fits s) (rank s) (evaluate s) };
}

//! Elements of arrays, each once.
ghost use Rattle.std.specs.Prelude.{◌≡◌, [], List, ℕ, ℤ, IfOk, OnOk, true, if◌then◌else◌};
ghost use Rattle.std.specs.Cmp.Lexicographic.{pointwise};
ghost use Rattle.std.specs.Cmp.Rules.{comparing, hashing};
ghost use Rattle.std.specs.Hash as fed;
ghost use Rattle.std.specs.Ordering.{int_eq};
ghost use Rattle.std.proofs.Common.{rules};
ghost use Rattle.check_data.specs.Seen as s;

use f77_tree::{List, Name};
use indexmap::IndexSet;
use std::alloc::{AllocError, Global};
use std::hash::{Hash, Hasher};
use std::marker::Model;

/// The subscripts of an element.
#[derive(Drop)]
pub struct Subscripts {
    values: List<i64>,
}

impl Model for Subscripts {
    ghost use Rattle.std.specs.Prelude.{ℤ, List};

    ghost Value = { List ℤ };

    ghost view = { λ s. s.values };
}

impl Subscripts {
    /// These subscripts.
    pub fn from_list(values: List<i64>) -> Subscripts
        ensures { result ≡ values }
    {
        Subscripts { values }
    }

    fn as_slice(&self) -> &[i64]
        ensures { result.now ≡ self.now }
    {
        self.values.as_slice()
    }

    /// The same subscripts again.
    pub fn copy(&self, alloc: Global) -> Result<Subscripts, AllocError>
        ensures { IfOk result (λ again. again ≡ self.now) }
    {
        Ok(Subscripts {
            values: List::from_slice(alloc, self.values.as_slice())?,
        })
    }
}

impl PartialEq for Subscripts {
    ghost eq = { pointwise int_eq };

    ghost laws = { Prim.search (comparing, rules) };

    fn eq(&self, other: &Subscripts) -> bool {
        self.as_slice() == other.as_slice()
    }
}

impl Eq for Subscripts {
    ghost laws = { Prim.search (comparing, rules) };
}

impl Hash for Subscripts {
    ghost hash_input = { λ s. fed.slice fed.i64 s };

    ghost respects_eq = { Prim.search (hashing, rules) };

    fn hash<H: Hasher>(&self, state: &mut H) {
        self.as_slice().hash(state);
    }
}

/// Elements by their names and subscripts, each once.
#[derive(Drop)]
pub struct Elements {
    set: IndexSet<(Name, Subscripts)>,
}

impl Model for Elements {
    ghost use Rattle.std.specs.Prelude.{ℕ, ℤ, List};

    ghost Value = { List (List ℕ × List ℤ) };

    ghost view = { λ e. e.set.keys };
}

impl Elements {
    /// No element.
    pub fn new(alloc: Global) -> Elements
        ensures { result ≡ [] }
    {
        Elements {
            set: IndexSet::new(alloc),
        }
    }

    /// Whether the element is there.
    pub fn contains(&self, element: &(Name, Subscripts)) -> bool
        ensures { result ≡ s.has self.now element.now }
    {
        self.set.contains(element)
    }

    /// Puts an element there.
    pub fn insert(&mut self, element: (Name, Subscripts)) -> Result<(), AllocError>
        ensures { OnOk result ((q : List ℕ × List ℤ) → s.has self.new q ≡ (if s.same_element element q then true else s.has self.old q)) }
    {
        self.set.insert(element)?;
        Ok(())
    }
}

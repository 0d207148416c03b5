//! Names in order, and what is told of them.
ghost use Rattle.std.specs.Prelude.{◌≡◌, ℕ, List, [], OnOk, Some, if◌then◌else◌};
ghost use Rattle.std.specs.List.{position_or_len};
ghost use Rattle.std.specs.Option.{option_copied};
ghost use Rattle.f77_values.specs.Tables as n;

use f77_tree::Name;
use indexmap::{IndexMap, IndexSet};
use std::alloc::{AllocError, Global};
use std::marker::Model;

/// Names, each once, in the order in which they came.
pub struct Names {
    names: IndexSet<Name>,
}

// A call of its own, so that who drops names doesn't open their set.
impl Drop for Names {
    fn drop(self) {
        let Names { names } = self;
    }
}

impl Model for Names {
    ghost use Rattle.std.specs.Prelude.{ℕ, List};

    ghost Value = { List (List ℕ) };

    ghost view = { λ n. n.names.keys };
}

impl Names {
    /// No name.
    pub fn new(alloc: Global) -> Names
        ensures { result ≡ [] }
    {
        Names {
            names: IndexSet::new(alloc),
        }
    }

    /// Puts a name last that isn't there.
    pub fn insert(&mut self, name: Name) -> Result<(), AllocError>
        ensures { OnOk result (self.new ≡ n.with_name self.old name) }
    {
        self.names.insert(name)?;
        Ok(())
    }

    /// Whether the name is there.
    pub fn contains(&self, name: &Name) -> bool
        ensures { result ≡ n.is_among self.now name.now }
    {
        self.names.contains(name)
    }

    /// How many names stand before it, or how many there are where it isn't there.
    pub fn position(&self, name: &Name) -> usize
        ensures { result ≡ position_or_len (n.name_eq name.now) self.now }
    {
        match self.names.get_index_of(name) {
            Some(index) => index,
            None => self.names.len(),
        }
    }

    /// The names.
    pub fn as_slice(&self) -> &[Name]
        ensures { result.now ≡ self.now }
    {
        self.names.as_slice()
    }
}

/// What is told of names: contracts see the pairs.
pub struct Table<V: Drop> {
    entries: IndexMap<Name, V>,
}

// A call of its own, so that who drops it doesn't open its map.
impl<V: Drop> Drop for Table<V> {
    fn drop(self) {
        let Table { entries } = self;
    }
}

impl<V: Drop> Model for Table<V> {
    ghost use Rattle.std.specs.Prelude.{ℕ, List};

    ghost Value = { List (List ℕ × V) };

    ghost view = { λ t. t.entries.entries };
}

impl<V: Drop> Table<V> {
    /// Nothing is told.
    pub fn new(alloc: Global) -> Table<V>
        ensures { result ≡ [] }
    {
        Table {
            entries: IndexMap::new(alloc),
        }
    }

    /// Tells something of a name, in the place of what was told of it before.
    pub fn insert(&mut self, name: Name, what: V) -> Result<(), AllocError>
        ensures pairs { OnOk result (self.new ≡ n.with_told self.old name what) }
        ensures what { OnOk result ((q : List ℕ) → n.what self.new q ≡ (if n.name_eq name q then Some what else n.what self.old q)) }
    {
        self.entries.insert(name, what)?;
        Ok(())
    }

    /// What is told of a name.
    pub fn get(&self, name: &Name) -> Option<&V>
        ensures { option_copied result ≡ n.what self.now name.now }
    {
        self.entries.get(name)
    }
}

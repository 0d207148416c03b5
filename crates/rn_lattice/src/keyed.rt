ghost use Rattle.std.specs.Prelude.{◌≡◌, ◌≢◌, not, [], IfSome, IfOk, OnOk};
ghost use Rattle.std.specs.Option.{option_copied};
ghost use Rattle.std.specs.BTreeMap.{IsOrdered};
ghost use Rattle.std.specs.List.Sorted.{IsStrictlySortedBy};
ghost use Rattle.std.specs.Map.{keys_of};
ghost use Rattle.std.specs.Map.Iter.{ShowsInOrder, deref_pair};
ghost use Rattle.rn_lattice.specs.Order.{IsJoin};
ghost use Rattle.rn_lattice.specs.Maps.{get, value_at, IsMap};

use crate::{Key, Lattice};
use std::alloc::{AllocError, Global};
use std::collections::BTreeMap;
use std::collections::btree_map::Iter;
use std::marker::Model;

/// A finite map in the order of its keys. A key that it has not is at the bottom, and it keeps no bottom.
#[derive(Drop)]
pub struct Keyed<K: Key, L: Lattice + Drop> {
    map: BTreeMap<K, L>,
}

impl<K: Key, L: Lattice + Drop> Model for Keyed<K, L> {
    ghost use Rattle.std.specs.Prelude.{List};

    ghost Value = { List (K × L) };

    ghost use Rattle.rn_lattice.specs.Maps.{IsMap};

    ghost view = { λ m. m.map.entries };

    ghost invariant = { λ m. IsMap K.cmp L.is_value L.bottom m.map.entries };
}

impl<K: Key, L: Lattice + Drop> Keyed<K, L> {
    /// The map that has the bottom at each key.
    pub fn new(alloc: Global) -> Self
        ensures { result ≡ [] }
    {
        Keyed {
            map: BTreeMap::new(alloc),
        }
    }

    /// The value at the key, or nothing where that is the bottom.
    pub fn get(&self, key: &K) -> Option<&L>
        ensures value { option_copied result ≡ get K.cmp self.now key.now }
        ensures map { IsMap K.cmp L.is_value L.bottom self.now }
    {
        self.map.get(key)
    }

    /// The keys with their values, in the order of the keys.
    pub fn iter(&self) -> Iter<'_, K, L>
        ensures rest { result ≡ self.now }
        ensures runs { ShowsInOrder (deref_pair {K = K} {X = L}) }
        ensures map { IsMap K.cmp L.is_value L.bottom self.now }
    {
        self.map.iter()
    }

    /// Joins the value to the one at the key, and says whether that rose.
    ///
    /// Where there was no memory, nothing more is known of the value at the key.
    pub fn raise(&mut self, alloc: Global, key: &K, value: &L) -> Result<bool, AllocError>
        ensures joins { OnOk result (IsJoin L.is_value L.leq (value_at K.cmp L.bottom self.old key.now) value.now (value_at K.cmp L.bottom self.new key.now)) }
        ensures others { (q : K) → q ≢ key.now → get K.cmp self.new q ≡ get K.cmp self.old q }
        ensures rose { IfOk result (λ rose. rose ≡ not (L.leq (value_at K.cmp L.bottom self.new key.now) (value_at K.cmp L.bottom self.old key.now))) }
        ensures value { OnOk result (L.is_value value.now) }
        ensures was_map { OnOk result (IsMap K.cmp L.is_value L.bottom self.old) }
        ensures map { OnOk result (IsMap K.cmp L.is_value L.bottom self.new) }
    {
        match self.map.get_mut(key) {
            Some(kept) => {
                let rose = kept.join(alloc, value);
                if rose.is_err() {
                    self.map.remove(key);
                }
                rose
            }
            None => self.add(alloc, key, value),
        }
    }

    // Joins the value to the bottom at a key that the map has not.
    fn add(&mut self, alloc: Global, key: &K, value: &L) -> Result<bool, AllocError>
        requires { get K.cmp self.old key.now ≡ None }
        ensures joins { OnOk result (IsJoin L.is_value L.leq L.bottom value.now (value_at K.cmp L.bottom self.new key.now)) }
        ensures others { (q : K) → q ≢ key.now → get K.cmp self.new q ≡ get K.cmp self.old q }
        ensures rose { IfOk result (λ rose. rose ≡ not (L.leq (value_at K.cmp L.bottom self.new key.now) L.bottom)) }
        ensures value { OnOk result (L.is_value value.now) }
        ensures was_map { OnOk result (IsMap K.cmp L.is_value L.bottom self.old) }
        ensures map { OnOk result (IsMap K.cmp L.is_value L.bottom self.new) }
    {
        let mut added = L::bottom(alloc)?;
        let rose = added.join(alloc, value)?;
        if rose {
            self.map.insert(key.clone()?, added)?;
        }
        Ok(rose)
    }
}

impl<K: Key, L: Lattice + Drop> Lattice for Keyed<K, L> {
    ghost use Rattle.std.specs.Prelude.{[]};
    ghost use Rattle.rn_lattice.specs.Maps.{IsMap, map_leq};
    ghost use Rattle.rn_lattice.specs.MapOrders.{map_order};

    ghost is_value = { IsMap K.cmp L.is_value L.bottom };

    ghost leq = { map_leq K.cmp L.leq L.bottom };

    ghost bottom = { [] };

    fn bottom(alloc: Global) -> Result<Self, AllocError> {
        Ok(Keyed::new(alloc))
    }

    fn leq(&self, other: &Self) -> bool {
        for (key, value) in &self.map {
            match other.map.get(key) {
                Some(above) if value.leq(above) => {}
                _ => return false,
            }
        }
        true
    }

    fn join(&mut self, alloc: Global, other: &Self) -> Result<bool, AllocError> {
        // Before the first key, this is the map that it was.
        let _ = &self.map;
        let mut rose = false;
        for (key, value) in &other.map {
            rose |= self.raise(alloc, key, value)?;
        }
        Ok(rose)
    }

    ghost order = { map_order K.total K.equal_is_same L.order };
}

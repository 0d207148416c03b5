//! Pairs of items.
ghost use Rattle.std.specs.Prelude.{◌≡◌, ◌≤◌, ℕ, [], IsTrue, IfOk, MatchOption, false};
ghost use Rattle.f77_tree.specs.declared.unit.Item.TheVariants.{Dummy};
ghost use Rattle.rn_lattice.specs.Maps.{IsMap};
ghost use Rattle.std.specs.Ordering.{nat_cmp};
ghost use Rattle.iv_set.specs.Toggles.{either, both, first_alone};
ghost use Rattle.iv_set.specs.Places.{IsRun, between};
ghost use Rattle.iv_set.specs.Sets.{has_item, leq, IsSet};
ghost use Rattle.iv_set.specs.Least.{IsLeast};
ghost use Rattle.item_maps.specs.Relation.{of_dummy, leads, paired, follows, adds, within, IsPairs, IsJoinedBy, IsLeastPair};
ghost use Rattle.item_maps.specs.Passes.{brings, keeps, are};

use f77_tree::Item;
use iv_set::Ranges;
use rn_lattice::{Keyed, Lattice};
use std::alloc::{AllocError, Global};
use std::marker::Model;

/// A finite symmetric relation of items, of which one member of each pair is a dummy. Each pair stands with the dummy
/// that comes first.
#[derive(Drop)]
pub struct Pairs {
    map: Keyed<u32, Ranges>,
}

impl Model for Pairs {
    ghost use Rattle.std.specs.Prelude.{ℕ, List};
    ghost use Rattle.iv_set.specs.declared.bound.Bound.{Bound};
    ghost use Rattle.item_maps.specs.Relation.{IsPairs};

    ghost Value = { List (ℕ × List Bound) };

    ghost view = { λ p. p.map };

    ghost invariant = { λ p. IsPairs p.map };
}

// Adds to the set what one entry of a relation joins to a member of another set.
fn bring(
    alloc: Global,
    all: &mut Ranges,
    set: &Ranges,
    dummy: u32,
    with: &Ranges,
) -> Result<(), AllocError>
    ensures { IfOk result (λ _. (i : Item) → has_item all.new i ≡ either (has_item all.old i) (brings set.now dummy with.now i)) }
{
    let member = Item::Dummy(dummy);
    if set.has(&member) {
        all.unite(alloc, with)?;
    }
    if set.meets(with) {
        all.add(alloc, &member, &member)?;
    }
    Ok(())
}

// Adds one entry of a relation, as far as its members are in a set.
fn keep(
    alloc: Global,
    kept: &mut Keyed<u32, Ranges>,
    own: &Ranges,
    dummy: u32,
    with: &Ranges,
) -> Result<(), AllocError>
    ensures kept { IfOk result (λ _. (q : ℕ) (i : Item) → has_item (of_dummy kept.new q) i ≡ either (has_item (of_dummy kept.old q) i) (keeps own.now dummy with.now q i)) }
    ensures map { IfOk result (λ _. IsMap nat_cmp IsSet [] kept.old → IsMap nat_cmp IsSet [] kept.new) }
{
    if own.has(&Item::Dummy(dummy)) {
        let both = with.cut(alloc, own)?;
        kept.raise(alloc, &dummy, &both)?;
    }
    Ok(())
}

impl Pairs {
    /// The relation without pairs.
    pub fn empty(alloc: Global) -> Result<Pairs, AllocError>
        ensures empty { IfOk result (λ pairs. pairs ≡ []) }
        ensures none { IfOk result (λ pairs. (x y : Item) → paired pairs x y ≡ false) }
    {
        Ok(Pairs {
            map: Keyed::new(alloc),
        })
    }

    /// The same relation again.
    pub fn copy(&self, alloc: Global) -> Result<Pairs, AllocError>
        ensures { IfOk result (λ again. again ≡ self.now) }
    {
        let mut map = Keyed::new(alloc);
        map.join(alloc, &self.map)?;
        Ok(Pairs { map })
    }

    // The items that stand with the dummy.
    fn of(&self, dummy: u32) -> Option<&Ranges>
        ensures with { MatchOption result (of_dummy self.now dummy ≡ []) (λ set. of_dummy self.now dummy ≡ set.now) }
        ensures pairs { IsPairs self.now }
    {
        self.map.get(&dummy)
    }

    // Whether the first is a dummy with which the second stands.
    fn leads(&self, one: &Item, other: &Item) -> bool
        ensures { result ≡ leads self.now one.now other.now }
    {
        match one {
            Item::Dummy(dummy) => match self.of(*dummy) {
                Some(set) => set.has(other),
                None => false,
            },
            Item::Local(_) => false,
            Item::Common(_, _) => false,
        }
    }

    /// Whether the two items are a pair, in either order.
    pub fn has(&self, one: &Item, other: &Item) -> bool
        ensures { result ≡ paired self.now one.now other.now }
    {
        if self.leads(one, other) {
            true
        } else {
            self.leads(other, one)
        }
    }

    /// Whether each pair is one of the other relation.
    pub fn within(&self, other: &Pairs) -> bool
        ensures answer { result ≡ within self.now other.now }
        ensures inside { IsTrue result → (x y : Item) → IsTrue (paired self.now x y) → IsTrue (paired other.now x y) }
        ensures only { ((x y : Item) → IsTrue (paired self.now x y) → IsTrue (paired other.now x y)) → IsTrue result }
        ensures same { ((x y : Item) → paired self.now x y ≡ paired other.now x y) → self.now ≡ other.now }
    {
        self.map.leq(&other.map)
    }

    // Pairs the dummy with the items of a run, none of which is a dummy before it.
    fn raise(&mut self, alloc: Global, dummy: u32, from: &Item, to: &Item) -> Result<(), AllocError>
        requires run { IsRun from.now to.now }
        requires follows { (i : Item) → IsTrue (between from.now to.now i) → IsTrue (follows dummy i) }
        ensures { IfOk result (λ _. (x y : Item) → paired self.new x y ≡ either (paired self.old x y) (either (adds dummy from.now to.now x y) (adds dummy from.now to.now y x))) }
    {
        let mut set = Ranges::empty(alloc)?;
        set.add(alloc, from, to)?;
        match self.map.raise(alloc, &dummy, &set) {
            Ok(_) => Ok(()),
            Err(error) => {
                // What the map has at the dummy isn't known any more.
                self.map = Keyed::new(alloc);
                Err(error)
            }
        }
    }

    // Pairs two dummies.
    fn add_two(&mut self, alloc: Global, dummy: u32, other: u32) -> Result<(), AllocError>
        ensures { IfOk result (λ _. (x y : Item) → paired self.new x y ≡ either (paired self.old x y) (either (are dummy other x y) (are dummy other y x))) }
    {
        if dummy <= other {
            let second = Item::Dummy(other);
            self.raise(alloc, dummy, &second, &second)?;
            Ok(())
        } else {
            let second = Item::Dummy(dummy);
            self.raise(alloc, other, &second, &second)?;
            Ok(())
        }
    }

    // Pairs the dummy with each dummy from one to another.
    fn add_dummies(
        &mut self,
        alloc: Global,
        dummy: u32,
        first: u32,
        last: u32,
    ) -> Result<(), AllocError>
        requires { first ≤ last }
        ensures { IfOk result (λ _. (x y : Item) → paired self.new x y ≡ either (paired self.old x y) (either (adds dummy (Dummy first) (Dummy last) x y) (adds dummy (Dummy first) (Dummy last) y x))) }
    {
        for other in u64::from(first)..u64::from(last) + 1 {
            self.add_two(alloc, dummy, other as u32)?;
        }
        Ok(())
    }

    /// Pairs the dummy with each item from one end to the other.
    ///
    /// Where there was no memory, nothing more is known of the pairs.
    pub fn add(
        &mut self,
        alloc: Global,
        dummy: u32,
        from: &Item,
        to: &Item,
    ) -> Result<(), AllocError>
        requires { IsRun from.now to.now }
        ensures { IfOk result (λ _. (x y : Item) → paired self.new x y ≡ either (paired self.old x y) (either (adds dummy from.now to.now x y) (adds dummy from.now to.now y x))) }
    {
        match from {
            Item::Dummy(first) => match to {
                Item::Dummy(last) => self.add_dummies(alloc, dummy, *first, *last)?,
                // No run has its ends in two areas.
                Item::Local(_) => {}
                Item::Common(_, _) => {}
            },
            Item::Local(_) => self.raise(alloc, dummy, from, to)?,
            Item::Common(_, _) => self.raise(alloc, dummy, from, to)?,
        }
        Ok(())
    }

    /// The set with each item that a pair joins to one of its members.
    pub fn joined(&self, alloc: Global, set: &Ranges) -> Result<Ranges, AllocError>
        ensures { IfOk result (IsJoinedBy self.now set.now) }
    {
        let mut all = set.copy(alloc)?;
        for (dummy, with) in self.map.iter() {
            bring(alloc, &mut all, set, *dummy, with)?;
        }
        Ok(all)
    }

    /// The pairs of which both members are in the set.
    pub fn restricted(&self, alloc: Global, own: &Ranges) -> Result<Pairs, AllocError>
        ensures { IfOk result (λ kept. (x y : Item) → paired kept x y ≡ both (paired self.now x y) (both (has_item own.now x) (has_item own.now y))) }
    {
        let mut map = Keyed::new(alloc);
        for (dummy, with) in self.map.iter() {
            keep(alloc, &mut map, own, *dummy, with)?;
        }
        Ok(Pairs { map })
    }

    // The least item of a set that doesn't stand with the dummy.
    fn least_beside(
        &self,
        alloc: Global,
        dummy: u32,
        with: &Ranges,
    ) -> Result<Option<Item>, AllocError>
        ensures pairs { IsPairs self.now }
        ensures least { IfOk result (λ found. MatchOption found (IsTrue (leq with.now (of_dummy self.now dummy))) (IsLeast (λ i. first_alone (has_item with.now i) (has_item (of_dummy self.now dummy) i)))) }
    {
        match self.of(dummy) {
            Some(set) => with.least_beyond(alloc, set),
            None => with.least_beyond(alloc, &Ranges::empty(alloc)?),
        }
    }

    /// The first pair that the other relation lacks, by its dummy and then by the item that stands with it; none where
    /// each is one of the other relation.
    pub fn least_beyond(
        &self,
        alloc: Global,
        other: &Pairs,
    ) -> Result<Option<(u32, Item)>, AllocError>
        ensures { IfOk result (λ found. MatchOption found (IsTrue (within self.now other.now)) (λ p. IsLeastPair self.now other.now p.0 p.1)) }
    {
        for (dummy, with) in self.map.iter() {
            match other.least_beside(alloc, *dummy, with)? {
                Some(item) => return Ok(Some((*dummy, item))),
                None => {}
            }
        }
        Ok(None)
    }
}

//! Sets of items.
ghost use Rattle.std.specs.Prelude.{◌≡◌, [], IsTrue, IsFalse, IfOk, IfErr, MatchOption, false};
ghost use Rattle.rn_lattice.specs.Order.{IsJoin};
ghost use Rattle.iv_set.specs.Toggles.{either, both, first_alone};
ghost use Rattle.iv_set.specs.Places.{place_of, is_item, IsRun, between, run};
ghost use Rattle.iv_set.specs.Sets.{has_item, leq, made, meets, IsSet};
ghost use Rattle.iv_set.specs.Walks.{touches, ends_before};
ghost use Rattle.iv_set.specs.Least.{IsLeast};

use crate::bound::{Bound, append, copies, ends, ends_before, is_above, item_at, stretch, touches};
use crate::walk::{Rule, any, combined, first_of};
use f77_tree::Item;
use rn_lattice::Lattice;
use std::alloc::{AllocError, Global};
use std::marker::Model;

/// A finite set of items, kept as the rising bounds at which its runs begin and end.
#[derive(Drop)]
pub struct Ranges {
    bounds: Vec<Bound>,
}

impl Model for Ranges {
    ghost use Rattle.std.specs.Prelude.{List};
    ghost use Rattle.iv_set.specs.declared.bound.Bound.{Bound};
    ghost use Rattle.iv_set.specs.Sets.{IsSet};

    ghost Value = { List Bound };

    ghost view = { λ r. r.bounds.items };

    ghost invariant = { λ r. IsSet r.bounds.items };
}

fn has_in(bounds: &[Bound], item: &Item) -> bool
    ensures { result ≡ has_item bounds.now item.now }
{
    let mut inside = false;
    for bound in bounds {
        if is_above(bound, item) {
            return inside;
        }
        inside = !inside;
    }
    inside
}

impl Ranges {
    /// The set without members.
    pub fn empty(alloc: Global) -> Result<Ranges, AllocError>
        ensures empty { IfOk result (λ set. set ≡ []) }
        ensures none { IfOk result (λ set. (i : Item) → has_item set i ≡ false) }
    {
        Ok(Ranges {
            bounds: Vec::new(alloc),
        })
    }

    /// The same set again.
    pub fn copy(&self, alloc: Global) -> Result<Ranges, AllocError>
        ensures same { IfOk result (λ again. again ≡ self.now) }
        ensures set { IsSet self.now }
    {
        Ok(Ranges {
            bounds: copies(alloc, &self.bounds)?,
        })
    }

    /// The rising places at which membership turns: where each run begins, and the place behind its last item.
    pub fn bounds(&self) -> &[Bound]
        ensures bounds { result.now ≡ self.now }
        ensures set { IsSet self.now }
    {
        &self.bounds
    }

    /// Whether the item is a member.
    pub fn has(&self, item: &Item) -> bool
        ensures { result ≡ has_item self.now item.now }
    {
        has_in(&self.bounds, item)
    }

    /// Whether each member is one of the other set.
    pub fn within(&self, other: &Ranges) -> bool
        ensures answer { result ≡ leq self.now other.now }
        ensures inside { IsTrue result → (i : Item) → IsTrue (has_item self.now i) → IsTrue (has_item other.now i) }
        ensures only { ((i : Item) → IsTrue (has_item self.now i) → IsTrue (has_item other.now i)) → IsTrue result }
        ensures same { ((i : Item) → has_item self.now i ≡ has_item other.now i) → self.now ≡ other.now }
        ensures first { IsSet self.now }
        ensures second { IsSet other.now }
    {
        !any(Rule::FirstAlone, &self.bounds, &other.bounds)
    }

    /// Whether the two sets have a member in common.
    pub fn meets(&self, other: &Ranges) -> bool
        ensures answer { result ≡ meets self.now other.now }
        ensures apart { IsFalse result → (i : Item) → both (has_item self.now i) (has_item other.now i) ≡ false }
        ensures only { ((i : Item) → both (has_item self.now i) (has_item other.now i) ≡ false) → IsFalse result }
    {
        any(Rule::Both, &self.bounds, &other.bounds)
    }

    /// The least member that the other set lacks; none where each is one of the other set.
    pub fn least_beyond(&self, alloc: Global, other: &Ranges) -> Result<Option<Item>, AllocError>
        ensures least { IfOk result (λ found. MatchOption found (IsTrue (leq self.now other.now)) (IsLeast (λ i. first_alone (has_item self.now i) (has_item other.now i)))) }
    {
        match first_of(Rule::FirstAlone, &self.bounds, &other.bounds) {
            Some(bound) => Ok(Some(item_at(alloc, bound)?)),
            None => Ok(None),
        }
    }

    /// The members of both sets.
    pub fn cut(&self, alloc: Global, other: &Ranges) -> Result<Ranges, AllocError>
        ensures { IfOk result (λ all. (i : Item) → has_item all i ≡ both (has_item self.now i) (has_item other.now i)) }
    {
        Ok(Ranges {
            bounds: combined(alloc, Rule::Both, &self.bounds, &other.bounds)?,
        })
    }

    // The members of either set.
    fn union(&self, alloc: Global, other: &Ranges) -> Result<Ranges, AllocError>
        ensures union { IfOk result (λ all. all ≡ made either self.now other.now) }
        ensures first { IsSet self.now }
        ensures second { IsSet other.now }
    {
        Ok(Ranges {
            bounds: combined(alloc, Rule::Either, &self.bounds, &other.bounds)?,
        })
    }

    /// Adds the members of the other set. Where there was no memory, the set is as it was.
    pub fn unite(&mut self, alloc: Global, other: &Ranges) -> Result<(), AllocError>
        ensures united { IfOk result (λ _. (i : Item) → has_item self.new i ≡ either (has_item self.old i) (has_item other.now i)) }
        ensures kept { IfErr result (λ _. self.new ≡ self.old) }
    {
        *self = self.union(alloc, other)?;
        Ok(())
    }

    // The items from one end to the other.
    fn run(alloc: Global, from: &Item, to: &Item) -> Result<Ranges, AllocError>
        requires { IsRun from.now to.now }
        ensures run { IfOk result (λ all. all ≡ run from.now to.now) }
        ensures set { IfOk result IsSet }
        ensures fits { IfOk result (λ _. IsTrue (is_item (place_of to.now))) }
    {
        Ok(Ranges {
            bounds: ends(alloc, from, to)?,
        })
    }

    // Adds a run that begins where the last one ends.
    fn add_touching(&mut self, alloc: Global, from: &Item, to: &Item) -> Result<(), AllocError>
        requires touches { IsTrue (touches self.old from.now) }
        requires run { IsRun from.now to.now }
        ensures union { IfOk result (λ _. self.new ≡ made either self.old (run from.now to.now)) }
        ensures fits { IfOk result (λ _. IsTrue (is_item (place_of to.now))) }
        ensures kept { IfErr result (λ _. self.new ≡ self.old) }
    {
        stretch(alloc, &mut self.bounds, to)?;
        Ok(())
    }

    // Adds a run that begins behind the last one.
    fn add_behind(&mut self, alloc: Global, from: &Item, to: &Item) -> Result<(), AllocError>
        requires behind { IsTrue (ends_before self.old from.now) }
        requires run { IsRun from.now to.now }
        ensures union { IfOk result (λ _. self.new ≡ made either self.old (run from.now to.now)) }
        ensures fits { IfOk result (λ _. IsTrue (is_item (place_of to.now))) }
        ensures kept { IfErr result (λ _. self.new ≡ self.old) }
    {
        append(alloc, &mut self.bounds, from, to)?;
        Ok(())
    }

    // Adds a run anywhere.
    fn add_anywhere(&mut self, alloc: Global, from: &Item, to: &Item) -> Result<(), AllocError>
        requires { IsRun from.now to.now }
        ensures union { IfOk result (λ _. self.new ≡ made either self.old (run from.now to.now)) }
        ensures fits { IfOk result (λ _. IsTrue (is_item (place_of to.now))) }
        ensures kept { IfErr result (λ _. self.new ≡ self.old) }
    {
        let added = Ranges::run(alloc, from, to)?;
        *self = self.union(alloc, &added)?;
        Ok(())
    }

    // Adds a run, at the end without a walk.
    fn add_run(&mut self, alloc: Global, from: &Item, to: &Item) -> Result<(), AllocError>
        requires { IsRun from.now to.now }
        ensures set { IsSet self.old }
        ensures union { IfOk result (λ _. self.new ≡ made either self.old (run from.now to.now)) }
        ensures fits { IfOk result (λ _. IsTrue (is_item (place_of to.now))) }
        ensures kept { IfErr result (λ _. self.new ≡ self.old) }
    {
        if touches(&self.bounds, from) {
            return self.add_touching(alloc, from, to);
        }
        if ends_before(&self.bounds, from) {
            return self.add_behind(alloc, from, to);
        }
        self.add_anywhere(alloc, from, to)
    }

    /// Adds each item from one end to the other. Where there was no memory, the set is as it was.
    pub fn add(&mut self, alloc: Global, from: &Item, to: &Item) -> Result<(), AllocError>
        requires { IsRun from.now to.now }
        ensures added { IfOk result (λ _. (i : Item) → has_item self.new i ≡ either (has_item self.old i) (between from.now to.now i)) }
        ensures kept { IfErr result (λ _. self.new ≡ self.old) }
    {
        self.add_run(alloc, from, to)?;
        Ok(())
    }
}

impl Lattice for Ranges {
    ghost use Rattle.std.specs.Prelude.{[]};
    ghost use Rattle.iv_set.specs.Sets.{IsSet, leq, set_order};

    ghost is_value = { IsSet };

    ghost leq = { leq };

    ghost bottom = { [] };

    fn bottom(alloc: Global) -> Result<Self, AllocError> {
        Ranges::empty(alloc)
    }

    fn leq(&self, other: &Self) -> bool {
        self.within(other)
    }

    fn join(&mut self, alloc: Global, other: &Self) -> Result<bool, AllocError> {
        if other.within(self) {
            return Ok(false);
        }
        *self = self.union(alloc, other)?;
        Ok(true)
    }

    ghost order = { set_order };
}

//! The state of a program that runs.
ghost use Rattle.std.specs.Prelude.{◌≡◌, ◌++◌, OnOk, MatchResult};
ghost use Rattle.run_model.specs.Acts as a;
ghost use Rattle.run_model.specs.Turns as t;
ghost use Rattle.f77_semantics.specs.Values as v;
ghost use Rattle.f77_semantics.specs.Expressions as e;
ghost use Rattle.f77_tree.specs.declared.unit.Value.TheVariants as tree;
ghost use Rattle.interp_code.specs.Steps as c;
ghost use Rattle.interp_cells.specs.Spots.{loc_of};
ghost use Rattle.interp_steps.specs.Stops.{Gives, Ends, Stopped};
ghost use Rattle.interp_steps.specs.Worlds.{world_of};

use super::stop::Stop;
use f77_tree::{Ty, Value};
use interp_cells::{Spot, Storage};
use std::alloc::{AllocError, Global};

/// The cells, what was printed, the input still to come, and how many steps may still begin.
#[derive(Drop)]
pub struct State<'a> {
    pub storage: Storage,
    pub out: Vec<u8>,
    pub input: &'a [i64],
    pub left: u64,
}

fn has_type(ty: Ty, value: Value) -> bool
    ensures { result ≡ v.has_type ty value }
{
    match (ty, value) {
        (Ty::Integer, Value::Integer(_)) => true,
        (Ty::Logical, Value::Logical(_)) => true,
        _ => false,
    }
}

fn typed(ty: Ty, value: Value) -> Result<Value, Stop>
    ensures { Gives result (λ v. v) (e.typed ty value) }
{
    if has_type(ty, value) {
        Ok(value)
    } else {
        Err(Stop::Undefined(1))
    }
}

impl<'a> State<'a> {
    /// The value of this type at a location.
    pub fn fetch(&self, ty: Ty, spot: Spot) -> Result<Value, Stop>
        ensures { (h : a.Handler) → Ends result (λ v. v) (world_of self.now) (a.play h (e.fetch ty (loc_of spot.entry)) (world_of self.now)) }
    {
        match self.storage.get(spot) {
            Some(value) => typed(ty, value),
            None => Err(Stop::Undefined(1)),
        }
    }

    /// Stores a value.
    pub fn store(&mut self, alloc: Global, spot: Spot, value: Value) -> Result<(), Stop>
        ensures moves { (h : a.Handler) → Ends result (λ _. tt) (world_of self.new) (a.play h (e.store (loc_of spot.entry) value) (world_of self.old)) }
        ensures printed { self.new.out ≡ self.old.out }
    {
        self.storage.put(alloc, spot, value)?;
        Ok(())
    }

    /// Takes the next integer of the input and stores it.
    pub fn take_into(&mut self, alloc: Global, spot: Spot) -> Result<(), Stop>
        ensures moves { (h : a.Handler) → (t : c.Operands) → Ends result (λ _. t) (world_of self.new) (a.play h (a.Take (λ x. a.and_then (e.store (loc_of spot.entry) (tree.Integer x)) (λ _. a.Done t))) (world_of self.old)) }
        ensures printed { self.new.out ≡ self.old.out }
    {
        match self.input.split_first() {
            Some((first, others)) => {
                self.input = others;
                self.storage.put(alloc, spot, Value::Integer(*first))?;
                Ok(())
            }
            None => Err(Stop::Ended(3)),
        }
    }

    /// Begins a step, if one is left.
    #[tactic(auto, using(crate::proofs::Ticks::beginnings))]
    pub fn tick(&mut self) -> Result<(), Stop>
        ensures begins { (go : a.World → a.Outcome a.Answer) → MatchResult result (λ _. t.ticked self.old.left (world_of self.old) go ≡ go (world_of self.new)) (λ e. Stopped e (λ reason. t.ticked self.old.left (world_of self.old) go ≡ a.Stop reason (world_of self.new))) }
        ensures printed { self.new.out ≡ self.old.out }
    {
        if self.left == 0 {
            return Err(Stop::Spent);
        }
        self.left -= 1;
        Ok(())
    }

    /// Prints bytes.
    pub fn say(&mut self, bytes: &[u8]) -> Result<(), AllocError>
        ensures { OnOk result (world_of self.new ≡ record (world_of self.old) { out = self.old.out.items ++ bytes.now }) }
    {
        self.out.extend_from_slice(bytes)
    }
}

//! Values of items.
ghost use Rattle.std.specs.Prelude.{◌≡◌, [], IsTrue, IsFalse, IfOk, IfErr, MatchOption, Some, None, if◌then◌else◌};
ghost use Rattle.iv_set.specs.Places.{IsRun, between};
ghost use Rattle.iv_set.specs.Sets.{has_item};
ghost use Rattle.iv_set.specs.Least.{IsLeast};
ghost use Rattle.item_maps.specs.Steps.{get, made, IsSteps, over, unlike};
ghost use Rattle.item_maps.specs.Walks.{within, has_value};

use crate::step::{Step, copies, is_above, spread};
use crate::walk::{Rule, combined, first_of};
use f77_tree::{Item, Value};
use iv_set::{Ranges, item_at};
use std::alloc::{AllocError, Global};
use std::marker::Model;

/// A finite map from items to values, kept as the rising steps at which the value turns.
#[derive(Drop)]
pub struct Constants {
    steps: Vec<Step>,
}

impl Model for Constants {
    ghost use Rattle.std.specs.Prelude.{List};
    ghost use Rattle.item_maps.specs.declared.step.Step.{Step};
    ghost use Rattle.item_maps.specs.Steps.{IsSteps};

    ghost Value = { List Step };

    ghost view = { λ c. c.steps.items };

    ghost invariant = { λ c. IsSteps c.steps.items };
}

fn get_in(steps: &[Step], item: &Item) -> Option<Value>
    ensures { result ≡ get steps.now item.now }
{
    let mut value = None;
    for step in steps {
        if is_above(step, item) {
            return value;
        }
        value = step.value;
    }
    value
}

impl Constants {
    /// The map without values.
    pub fn empty(alloc: Global) -> Result<Constants, AllocError>
        ensures empty { IfOk result (λ map. map ≡ []) }
        ensures none { IfOk result (λ map. (i : Item) → get map i ≡ None) }
    {
        Ok(Constants {
            steps: Vec::new(alloc),
        })
    }

    /// The same map again.
    pub fn copy(&self, alloc: Global) -> Result<Constants, AllocError>
        ensures { IfOk result (λ again. again ≡ self.now) }
    {
        Ok(Constants {
            steps: copies(alloc, &self.steps)?,
        })
    }

    /// The rising places at which the value turns, with the value from each on.
    pub fn steps(&self) -> &[Step]
        ensures steps { result.now ≡ self.now }
        ensures map { IsSteps self.now }
    {
        &self.steps
    }

    /// The value of the item; none exactly where it has none.
    pub fn get(&self, item: &Item) -> Option<Value>
        ensures { result ≡ get self.now item.now }
    {
        get_in(&self.steps, item)
    }

    /// Gives the value to each item from one end to the other. Where there was no memory, the map is as it was.
    pub fn set(
        &mut self,
        alloc: Global,
        from: &Item,
        to: &Item,
        value: Value,
    ) -> Result<(), AllocError>
        requires { IsRun from.now to.now }
        ensures given { IfOk result (λ _. (i : Item) → get self.new i ≡ (if between from.now to.now i then Some value else get self.old i)) }
        ensures kept { IfErr result (λ _. self.new ≡ self.old) }
    {
        let mut run = Ranges::empty(alloc)?;
        run.add(alloc, from, to)?;
        let given = spread(alloc, run.bounds(), value)?;
        self.steps = combined(alloc, Rule::Over, &self.steps, &given)?;
        Ok(())
    }

    /// The values of the items of the set alone.
    pub fn restricted(&self, alloc: Global, to: &Ranges) -> Result<Constants, AllocError>
        ensures { IfOk result (λ map. (i : Item) → get map i ≡ (if has_item to.now i then get self.now i else None)) }
    {
        let wanted = spread(alloc, to.bounds(), Value::Logical(true))?;
        Ok(Constants {
            steps: combined(alloc, Rule::WhereSecond, &self.steps, &wanted)?,
        })
    }

    /// Whether each item that has a value has the same one in the other map.
    pub fn within(&self, other: &Constants) -> bool
        ensures answer { result ≡ within self.now other.now }
        ensures inside { IsTrue result → (i : Item) (v : Value) → get self.now i ≡ Some v → get other.now i ≡ Some v }
        ensures only { ((i : Item) (v : Value) → get self.now i ≡ Some v → get other.now i ≡ Some v) → IsTrue result }
        ensures same { ((i : Item) → get self.now i ≡ get other.now i) → self.now ≡ other.now }
    {
        first_of(Rule::Unlike, &self.steps, &other.steps).is_none()
    }

    /// The least item that has a value, and not the same one in the other map; none where there is no such item.
    pub fn least_unlike(&self, alloc: Global, other: &Constants) -> Result<Option<Item>, AllocError>
        ensures least { IfOk result (λ found. MatchOption found (IsTrue (within self.now other.now)) (IsLeast (λ i. has_value (unlike (get self.now i) (get other.now i))))) }
    {
        match first_of(Rule::Unlike, &self.steps, &other.steps) {
            Some(bound) => Ok(Some(item_at(alloc, bound)?)),
            None => Ok(None),
        }
    }
}

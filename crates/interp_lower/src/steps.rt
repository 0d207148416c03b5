//! Steps behind others.
ghost use Rattle.std.specs.Prelude.{◌≡◌, ◌∷◌, [], ◌++◌, suc, IfOk, OnOk};
ghost use Rattle.interp_data.specs.Meanings as m;
ghost use Rattle.interp_data.specs.Meant.{meant};
ghost use Rattle.interp_lower.specs.Pieces as p;

use f77_semantics::Array;
use f77_tree::{List, Name, Ty};
use interp_code::Step;
use interp_data::{Lookup, Meaning, copy_array, copy_base};
use std::alloc::{AllocError, Global};

/// One more step.
#[tactic(auto, using(interp_data::proofs::Lists::joined))]
pub fn add(code: &mut List<Step>, step: Step) -> Result<(), AllocError>
    ensures { OnOk result (code.new ≡ code.old ++ step ∷ []) }
{
    code.push(step)
}

/// The number of the next site. There is no memory for more sites than a `usize` counts.
pub fn following(site: usize) -> Result<usize, AllocError>
    ensures { IfOk result (λ next. next ≡ suc site) }
{
    site.checked_add(1).ok_or(AllocError)
}

/// The value of a name without a list.
pub fn bare_step(alloc: Global, meaning: &Meaning) -> Result<Step, AllocError>
    ensures { IfOk result (λ step. step ≡ p.bare_step (m.meant_of meaning.now)) }
{
    match meaning {
        Meaning::Constant(value) => Ok(Step::Push(*value)),
        Meaning::Variable(ty, base) => Ok(Step::Fetch(*ty, copy_base(alloc, base)?)),
        Meaning::Array(_, _) | Meaning::Function | Meaning::Intrinsic(_) | Meaning::Unknown => {
            Ok(Step::Wrong)
        }
    }
}

/// Where a name without a list stands, which is to be given a value.
pub fn aim_step(alloc: Global, meaning: &Meaning) -> Result<Step, AllocError>
    ensures { IfOk result (λ step. step ≡ p.aim_step (m.meant_of meaning.now)) }
{
    match meaning {
        Meaning::Variable(_, base) => Ok(Step::Aim(copy_base(alloc, base)?)),
        Meaning::Constant(_)
        | Meaning::Array(_, _)
        | Meaning::Function
        | Meaning::Intrinsic(_)
        | Meaning::Unknown => Ok(Step::Wrong),
    }
}

/// An element by its subscripts, and its value.
#[tactic(auto, using(interp_data::proofs::Lists::joined))]
pub fn add_element(
    alloc: Global,
    code: &mut List<Step>,
    ty: Ty,
    array: &Array,
) -> Result<(), AllocError>
    ensures { OnOk result (code.new ≡ code.old ++ p.element_steps ty array.now) }
{
    add(code, Step::Locate(copy_array(alloc, array)?))?;
    add(code, Step::Load(ty))
}

//! Numbers: the bounds of DO and of arrays.
ghost use Rattle.std.specs.Prelude.{◌≡◌, ◌+◌, ◌++◌, ◌∷◌, [], IfOk, OnOk};
ghost use Rattle.interp_data.specs.Meant.{meant};
ghost use Rattle.interp_lower.specs.Pieces as p;
ghost use Rattle.interp_code.specs.declared.step.Step.TheVariants.{Number};

use super::steps::add;
use super::terms::push_value;
use f77_tree::{Expr, List, Value};
use interp_code::Step;
use interp_data::Lookup;
use std::alloc::{AllocError, Global};

/// The value of an expression as a number.
#[tactic(auto, using(crate::proofs::Preludes::preludes))]
pub fn push_number(
    alloc: Global,
    code: &mut List<Step>,
    names: &Lookup,
    site: usize,
    e: &Expr,
) -> Result<usize, AllocError>
    ensures next { IfOk result (λ next. next ≡ site + p.site_count (meant names.now) e.now) }
    ensures steps { OnOk result (code.new ≡ code.old ++ (p.value_steps (meant names.now) e.now site ++ Number ∷ [])) }
{
    let next = push_value(alloc, code, names, site, e)?;
    add(code, Step::Number)?;
    Ok(next)
}

/// The value of an expression as a number, or 1 where there is none.
#[tactic(auto, using(crate::proofs::Preludes::preludes))]
pub fn push_or_one(
    alloc: Global,
    code: &mut List<Step>,
    names: &Lookup,
    site: usize,
    e: &Option<Expr>,
) -> Result<(), AllocError>
    ensures { OnOk result (code.new ≡ code.old ++ p.step_steps (meant names.now) e.now site) }
{
    match e {
        Some(e) => {
            push_number(alloc, code, names, site, e)?;
            Ok(())
        }
        None => add(code, Step::Push(Value::Integer(1))),
    }
}

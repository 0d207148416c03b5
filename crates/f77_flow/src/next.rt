//! The statements that may begin after a statement, with what lies between passed through.
ghost use Rattle.std.specs.Prelude.{◌≡◌, ℕ, ◌<◌, ◌++◌, [], ◌∷◌, Some, map, slice_get, length, IfOk, OnOk};
ghost use Rattle.f77_tree.specs.declared.unit.Stmt.{Stmt};
ghost use Rattle.f77_tree.specs.declared.form.Form.{out-Form};
ghost use Rattle.f77_flow.specs.Graph as g;
ghost use Rattle.f77_flow.specs.Labels as l;
ghost use Rattle.f77_flow.specs.Tables as t;
ghost use Rattle.f77_flow.specs.Next as n;
ghost use Rattle.f77_flow.specs.Adding as a;

use crate::control::Control;
use crate::ended::{push_after, push_ended};
use crate::simple::push_simple;
use f77_tree::{Form, List};
use std::alloc::{AllocError, Global};

/// The statements that may begin after statement k, in their order and with repeats.
pub fn begins(alloc: Global, control: &Control, k: usize) -> Result<List<u32>, AllocError>
    requires { k < length control.now.statements.now }
    ensures { IfOk result (λ all. a.Adds control.now.statements.now (g.follow control.now.statements.now (g.At k)) [] all) }
{
    let mut all = List::new(alloc);
    push_ways(control, &control.statements[k].form, k, &mut all)?;
    Ok(all)
}

// Adds what begins after statement k, which has this form.
fn push_ways(
    control: &Control,
    form: &Form,
    k: usize,
    all: &mut List<u32>,
) -> Result<(), AllocError>
    requires { k < length control.now.statements.now }
    ensures { OnOk result ((s : Stmt) → slice_get control.now.statements.now k ≡ Some s → s.form ≡ form.now → a.Adds control.now.statements.now (g.ways control.now.statements.now k (out-Form form.now)) all.old all.new) }
{
    match form {
        Form::BlockIf(_) | Form::ElseIf(_) => {
            all.push(control.below(k))?;
            all.push(control.otherwise(k))?;
        }
        Form::EndIf => push_after(control, k, all)?,
        Form::LogicalIf(_, inner) => {
            push_simple(control, inner.get(), k, all)?;
            push_after(control, k, all)?;
        }
        Form::Do(_, _, _, _, _) => push_tested(control, k, all)?,
        _ => push_simple(control, form, k, all)?,
    }
    Ok(())
}

// Adds what begins after the first test of the DO at d.
fn push_tested(control: &Control, d: usize, all: &mut List<u32>) -> Result<(), AllocError>
    requires { d < length control.now.statements.now }
    ensures { OnOk result (a.Adds control.now.statements.now (g.Test d ∷ []) all.old all.new) }
{
    let last = control.last(d) as usize;
    if last < control.statements.len() {
        all.push(control.below(d))?;
        push_ended(control, control.outer(d), last, all)?;
    }
    Ok(())
}

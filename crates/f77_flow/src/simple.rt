//! What begins after the statements that may stand in a logical IF.
ghost use Rattle.std.specs.Prelude.{◌<◌, ◌++◌, [], ◌∷◌, map, length, OnOk};
ghost use Rattle.f77_tree.specs.declared.form.Form.{out-Form};
ghost use Rattle.f77_flow.specs.Graph as g;
ghost use Rattle.f77_flow.specs.Labels as l;
ghost use Rattle.f77_flow.specs.Adding as a;

use crate::control::Control;
use crate::ended::push_after;
use f77_tree::{Form, List};
use std::alloc::AllocError;

/// Adds what begins after a statement that may stand in a logical IF, at statement k.
pub fn push_simple(
    control: &Control,
    form: &Form,
    k: usize,
    all: &mut List<u32>,
) -> Result<(), AllocError>
    requires { k < length control.now.statements.now }
    ensures { OnOk result (a.Adds control.now.statements.now (g.simple_ways control.now.statements.now k (out-Form form.now)) all.old all.new) }
{
    match form {
        Form::ArithmeticIf(_, minus, null, plus) => {
            all.push(control.target(*minus))?;
            all.push(control.target(*null))?;
            all.push(control.target(*plus))?;
        }
        Form::GoTo(label) => all.push(control.target(*label))?,
        Form::ComputedGoTo(labels, _) => {
            push_targets(control, labels.as_slice(), all)?;
            push_after(control, k, all)?;
        }
        Form::Assign(_, _) | Form::Continue | Form::Call(_, _) => push_after(control, k, all)?,
        Form::Print(_) | Form::Read(_) => push_after(control, k, all)?,
        _ => {}
    }
    Ok(())
}

// Adds where jumps to the labels go.
fn push_targets(control: &Control, labels: &[u32], all: &mut List<u32>) -> Result<(), AllocError>
    ensures { OnOk result (a.Adds control.now.statements.now (map (λ label. g.At (l.target control.now.statements.now label)) labels.now) all.old all.new) }
{
    for label in labels {
        all.push(control.target(*label))?;
    }
    Ok(())
}

//! The last statements of DOs.
ghost use Rattle.std.specs.Prelude.{◌≡◌, ◌<◌, length, IfOk};
ghost use Rattle.f77_tree.specs.declared.form.Form.{out-Form};
ghost use Rattle.f77_flow.specs.Kinds as kinds;
ghost use Rattle.f77_flow.specs.Checks as c;
ghost use Rattle.check_jumps.specs.Telling.{Tells, AreFlags};

use f77_flow::Control;
use f77_tree::{Form, List};
use std::alloc::{AllocError, Global};

// Whether a statement of this form ends no DO.
fn ends_no_loop(form: &Form) -> bool
    ensures { Tells result (c.EndsNoLoop (out-Form form.now) (kinds.kind_of (out-Form form.now))) }
{
    match form {
        Form::GoTo(_) | Form::ArithmeticIf(_, _, _, _) => true,
        Form::Return | Form::Stop | Form::End => true,
        Form::Assign(_, _) | Form::Continue | Form::Call(_, _) => false,
        Form::Print(_) | Form::Read(_) => false,
        Form::LogicalIf(_, _) | Form::ComputedGoTo(_, _) => false,
        _ => true,
    }
}

// Whether statement k is the last one of a DO that it can't end.
fn ends_badly(control: &Control, k: usize) -> bool
    requires { k < length control.now.statements.now }
    ensures { Tells result (c.EndsLoopBadly control.now.statements.now k) }
{
    if control.innermost(k) as usize >= control.statements.len() {
        return false;
    }
    ends_no_loop(&control.statements[k].form)
}

/// The last statements of DOs that can't end them.
pub fn bad_ends(alloc: Global, control: &Control) -> Result<List<bool>, AllocError>
    ensures { IfOk result (λ flags. AreFlags (c.EndsLoopBadly control.now.statements.now) (length control.now.statements.now) flags) }
{
    let mut flags = List::new(alloc);
    for k in 0..control.statements.len() {
        flags.push(ends_badly(control, k))?;
    }
    Ok(flags)
}

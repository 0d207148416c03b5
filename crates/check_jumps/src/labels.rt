//! Labels that jumps lead to and that stand on statements.
ghost use Rattle.std.specs.Prelude.{◌≡◌, ℕ, false, ◌<◌, ◌&&◌, ◌||◌, ◌==◌, nat_lt, length, IfOk, OnOk};
ghost use Rattle.f77_tree.specs.declared.form.Form.{out-Form};
ghost use Rattle.f77_flow.specs.Checks as c;
ghost use Rattle.check_jumps.specs.Telling.{Tells, AreFlags};
ghost use Rattle.check_jumps.specs.Labels as l;

use f77_flow::Control;
use f77_tree::{Form, List, Stmt};
use std::alloc::{AllocError, Global};
use std::collections::BTreeMap;

// The labels of a jump that may stand in a logical IF.
fn simple_labels(alloc: Global, form: &Form) -> Result<List<u32>, AllocError>
    ensures { IfOk result (λ labels. labels ≡ c.simple_labels (out-Form form.now)) }
{
    match form {
        Form::ArithmeticIf(_, minus, null, plus) => {
            List::from_slice(alloc, &[*minus, *null, *plus])
        }
        Form::GoTo(label) => List::from_slice(alloc, &[*label]),
        Form::ComputedGoTo(labels, _) => List::from_slice(alloc, labels.as_slice()),
        _ => Ok(List::new(alloc)),
    }
}

/// The labels that a statement of this form jumps to.
pub fn jump_labels(alloc: Global, form: &Form) -> Result<List<u32>, AllocError>
    ensures { IfOk result (λ labels. labels ≡ c.jump_labels (out-Form form.now)) }
{
    match form {
        Form::LogicalIf(_, inner) => simple_labels(alloc, inner.get()),
        _ => simple_labels(alloc, form),
    }
}

// Whether one of the labels stands on no executable statement.
fn leads_nowhere(control: &Control, labels: &[u32]) -> bool
    ensures { Tells result (l.LeadsNowhere control.now.statements.now labels.now (length labels.now)) }
{
    for label in labels {
        if control.target(*label) as usize >= control.statements.len() {
            return true;
        }
    }
    false
}

fn jumps_nowhere(alloc: Global, control: &Control, k: usize) -> Result<bool, AllocError>
    requires { k < length control.now.statements.now }
    ensures { IfOk result (λ flag. Tells flag (c.JumpsNowhere control.now.statements.now k)) }
{
    let labels = jump_labels(alloc, &control.statements[k].form)?;
    Ok(leads_nowhere(control, labels.as_slice()))
}

/// The statements that jump to a label that stands on no executable statement.
pub fn nowhere(alloc: Global, control: &Control) -> Result<List<bool>, AllocError>
    ensures { IfOk result (λ flags. AreFlags (c.JumpsNowhere control.now.statements.now) (length control.now.statements.now) flags) }
{
    let mut flags = List::new(alloc);
    for k in 0..control.statements.len() {
        let flag = jumps_nowhere(alloc, control, k)?;
        flags.push(flag)?;
    }
    Ok(flags)
}

// The labels of the statements that were seen.
#[derive(Drop)]
struct Seen {
    labels: BTreeMap<u32, bool>,
}

impl Seen {
    fn new(alloc: Global) -> Seen
        ensures { (label : ℕ) → l.has result label ≡ false }
    {
        Seen {
            labels: BTreeMap::new(alloc),
        }
    }

    // Takes the label of one more statement, and tells whether it stood before. 0 is no label.
    fn take(&mut self, label: u32) -> Result<bool, AllocError>
        ensures before { IfOk result (λ before. before ≡ (nat_lt 0 label && l.has self.old label)) }
        ensures labels { OnOk result ((q : ℕ) → l.has self.new q ≡ ((nat_lt 0 label && q == label) || l.has self.old q)) }
    {
        if label == 0 {
            return Ok(false);
        }
        let before = self.labels.insert(label, true)?;
        Ok(before.is_some())
    }
}

/// The statements whose labels stood before.
pub fn repeated(alloc: Global, statements: &[Stmt]) -> Result<List<bool>, AllocError>
    ensures { IfOk result (λ flags. AreFlags (c.RepeatsLabel statements.now) (length statements.now) flags) }
{
    let mut flags = List::new(alloc);
    let mut seen = Seen::new(alloc);
    for k in 0..statements.len() {
        let before = seen.take(statements[k].label)?;
        flags.push(before)?;
    }
    Ok(flags)
}

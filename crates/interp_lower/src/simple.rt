//! The statements that may stand in a logical IF.
ghost use Rattle.std.specs.Prelude.{◌≡◌, ◌+◌, ◌++◌, ◌∷◌, [], suc, map, if◌then◌else◌, IfOk};
ghost use Rattle.f77_tree.specs.declared.form.Form.{out-Form};
ghost use Rattle.f77_flow.specs.Labels as l;
ghost use Rattle.f77_semantics.specs.Program as program;
ghost use Rattle.f77_semantics.specs.Resolve as r;
ghost use Rattle.interp_code.specs.Endings as e;
ghost use Rattle.interp_data.specs.Meant.{meant};
ghost use Rattle.interp_lower.specs.Pieces as p;
ghost use Rattle.interp_lower.specs.Lines as lines;
ghost use Rattle.interp_code.specs.declared.step.Step.TheVariants.{Number, Open, Perform};

use super::piece::Piece;
use super::steps::{add, following};
use super::targets::{push_items, push_target, push_targets};
use super::terms::{push_actuals, push_value};
use f77_flow::Control;
use f77_tree::{Expr, Form, List};
use interp_code::{Ending, Step};
use interp_data::Lookup;
use std::alloc::{AllocError, Global};

/// The steps of a condition.
#[tactic(auto, using(crate::proofs::Preludes::preludes))]
pub fn condition_steps(
    alloc: Global,
    names: &Lookup,
    site: usize,
    e: &Expr,
) -> Result<(List<Step>, usize), AllocError>
    ensures steps { IfOk result (λ made. made.0 ≡ p.value_steps (meant names.now) e.now site) }
    ensures next { IfOk result (λ made. made.1 ≡ site + p.site_count (meant names.now) e.now) }
{
    let mut steps = List::new(alloc);
    let next = push_value(alloc, &mut steps, names, site, e)?;
    Ok((steps, next))
}

#[tactic(auto, using(crate::proofs::Preludes::preludes))]
fn assign_steps(
    alloc: Global,
    names: &Lookup,
    site: usize,
    target: &Expr,
    value: &Expr,
) -> Result<List<Step>, AllocError>
    ensures { IfOk result (λ steps. steps ≡ p.target_steps (meant names.now) target.now site ++ p.value_steps (meant names.now) value.now (site + p.site_count (meant names.now) target.now)) }
{
    let mut steps = List::new(alloc);
    let next = push_target(alloc, &mut steps, names, site, target)?;
    push_value(alloc, &mut steps, names, next, value)?;
    Ok(steps)
}

#[tactic(auto, using(crate::proofs::Preludes::preludes))]
fn number_steps(
    alloc: Global,
    names: &Lookup,
    site: usize,
    e: &Expr,
) -> Result<List<Step>, AllocError>
    ensures { IfOk result (λ steps. steps ≡ p.value_steps (meant names.now) e.now site ++ Number ∷ []) }
{
    let mut steps = List::new(alloc);
    push_value(alloc, &mut steps, names, site, e)?;
    add(&mut steps, Step::Number)?;
    Ok(steps)
}

#[tactic(auto, using(crate::proofs::Preludes::preludes))]
fn call_steps(
    alloc: Global,
    names: &Lookup,
    site: usize,
    actuals: &List<Expr>,
) -> Result<List<Step>, AllocError>
    ensures { IfOk result (λ steps. steps ≡ Open ∷ (p.actuals_steps (meant names.now) site 0 actuals.now (suc site) ++ Perform site ∷ [])) }
{
    let first = following(site)?;
    let mut steps = List::new(alloc);
    add(&mut steps, Step::Open)?;
    push_actuals(alloc, &mut steps, names, site, first, actuals)?;
    add(&mut steps, Step::Perform(site))?;
    Ok(steps)
}

#[tactic(auto, using(crate::proofs::Preludes::preludes))]
fn print_steps(
    alloc: Global,
    names: &Lookup,
    site: usize,
    items: &List<Expr>,
) -> Result<List<Step>, AllocError>
    ensures { IfOk result (λ steps. steps ≡ p.items_steps (meant names.now) items.now site) }
{
    let mut steps = List::new(alloc);
    push_items(alloc, &mut steps, names, site, items)?;
    Ok(steps)
}

#[tactic(auto, using(crate::proofs::Preludes::preludes))]
fn read_steps(
    alloc: Global,
    names: &Lookup,
    site: usize,
    targets: &List<Expr>,
) -> Result<List<Step>, AllocError>
    ensures { IfOk result (λ steps. steps ≡ p.targets_steps (meant names.now) targets.now site) }
{
    let mut steps = List::new(alloc);
    push_targets(alloc, &mut steps, names, site, targets)?;
    Ok(steps)
}

#[tactic(auto, using(interp_data::proofs::Lists::joined))]
fn targets_of(alloc: Global, control: &Control, labels: &List<u32>) -> Result<List<u32>, AllocError>
    ensures { IfOk result (λ all. all ≡ map (l.target control.now.statements.now) labels.now) }
{
    let mut all = List::new(alloc);
    for label in labels.as_slice() {
        all.push(control.target(*label))?;
    }
    Ok(all)
}

/// A statement without steps.
#[tactic(auto, using(crate::proofs::Preludes::preludes))]
pub fn ending_alone(alloc: Global, ending: Ending) -> Piece
    ensures steps { result.steps ≡ [] }
    ensures ending { result.ending ≡ ending }
{
    Piece {
        steps: List::new(alloc),
        ending,
    }
}

fn end(main: bool) -> Ending
    ensures { result ≡ e.ending (if main then program.Stop else program.Return) }
{
    if main { Ending::Halt } else { Ending::Leave }
}

#[tactic(auto, using(crate::proofs::Preludes::preludes))]
fn assign(
    alloc: Global,
    names: &Lookup,
    site: usize,
    target: &Expr,
    value: &Expr,
) -> Result<Piece, AllocError>
    ensures { IfOk result (λ piece. lines.IsPiece piece (program.Assign (r.term (meant names.now) target.now site) (r.term (meant names.now) value.now (site + r.sites (meant names.now) target.now)))) }
{
    let steps = assign_steps(alloc, names, site, target, value)?;
    Ok(Piece {
        steps,
        ending: Ending::Store,
    })
}

#[tactic(auto, using(crate::proofs::Preludes::preludes))]
fn arithmetic_if(
    alloc: Global,
    names: &Lookup,
    site: usize,
    e: &Expr,
    ways: (u32, u32, u32),
) -> Result<Piece, AllocError>
    ensures { IfOk result (λ piece. lines.IsPiece piece (program.ArithmeticIf (r.term (meant names.now) e.now site) ways.0 ways.1 ways.2)) }
{
    let steps = number_steps(alloc, names, site, e)?;
    Ok(Piece {
        steps,
        ending: Ending::Sign(ways.0, ways.1, ways.2),
    })
}

#[tactic(auto, using(crate::proofs::Preludes::preludes))]
fn computed(
    alloc: Global,
    names: &Lookup,
    site: usize,
    e: &Expr,
    ways: List<u32>,
) -> Result<Piece, AllocError>
    ensures { IfOk result (λ piece. lines.IsPiece piece (program.ComputedGoTo ways (r.term (meant names.now) e.now site))) }
{
    let steps = number_steps(alloc, names, site, e)?;
    Ok(Piece {
        steps,
        ending: Ending::Choose(ways),
    })
}

fn computed_go_to(
    alloc: Global,
    names: &Lookup,
    control: &Control,
    site: usize,
    labels: &List<u32>,
    e: &Expr,
) -> Result<Piece, AllocError>
    ensures { IfOk result (λ piece. lines.IsPiece piece (program.ComputedGoTo (map (l.target control.now.statements.now) labels.now) (r.term (meant names.now) e.now site))) }
{
    let ways = targets_of(alloc, control, labels)?;
    computed(alloc, names, site, e, ways)
}

#[tactic(auto, using(crate::proofs::Preludes::preludes))]
fn call(
    alloc: Global,
    names: &Lookup,
    site: usize,
    actuals: &List<Expr>,
) -> Result<Piece, AllocError>
    ensures { IfOk result (λ piece. lines.IsPiece piece (program.Call site (r.terms (meant names.now) actuals.now (suc site)))) }
{
    let steps = call_steps(alloc, names, site, actuals)?;
    Ok(Piece {
        steps,
        ending: Ending::Next,
    })
}

#[tactic(auto, using(crate::proofs::Preludes::preludes))]
fn print(
    alloc: Global,
    names: &Lookup,
    site: usize,
    items: &List<Expr>,
) -> Result<Piece, AllocError>
    ensures { IfOk result (λ piece. lines.IsPiece piece (program.Print (r.terms (meant names.now) items.now site))) }
{
    let steps = print_steps(alloc, names, site, items)?;
    Ok(Piece {
        steps,
        ending: Ending::Write,
    })
}

#[tactic(auto, using(crate::proofs::Preludes::preludes))]
fn read(
    alloc: Global,
    names: &Lookup,
    site: usize,
    targets: &List<Expr>,
) -> Result<Piece, AllocError>
    ensures { IfOk result (λ piece. lines.IsPiece piece (program.Read (r.terms (meant names.now) targets.now site))) }
{
    let steps = read_steps(alloc, names, site, targets)?;
    Ok(Piece {
        steps,
        ending: Ending::Next,
    })
}

/// A statement that may stand in a logical IF, from its first site on. END is STOP in a main program.
pub fn simple(
    alloc: Global,
    names: &Lookup,
    control: &Control,
    main: bool,
    site: usize,
    form: &Form,
) -> Result<Piece, AllocError>
    ensures { IfOk result (λ piece. lines.IsPiece piece (r.simple (meant names.now) main (l.target control.now.statements.now) site (out-Form form.now))) }
{
    match form {
        Form::Assign(target, value) => assign(alloc, names, site, target, value),
        Form::ArithmeticIf(e, a, b, c) => {
            let ways = (control.target(*a), control.target(*b), control.target(*c));
            arithmetic_if(alloc, names, site, e, ways)
        }
        Form::GoTo(label) => Ok(ending_alone(alloc, Ending::Jump(control.target(*label)))),
        Form::ComputedGoTo(labels, e) => computed_go_to(alloc, names, control, site, labels, e),
        Form::Continue => Ok(ending_alone(alloc, Ending::Next)),
        Form::Return => Ok(ending_alone(alloc, Ending::Leave)),
        Form::End => Ok(ending_alone(alloc, end(main))),
        Form::Stop => Ok(ending_alone(alloc, Ending::Halt)),
        Form::Call(_, actuals) => call(alloc, names, site, actuals),
        Form::Print(items) => print(alloc, names, site, items),
        Form::Read(targets) => read(alloc, names, site, targets),
        _ => Ok(ending_alone(alloc, Ending::Nowhere)),
    }
}

//! The lines of a unit, a statement each.
ghost use Rattle.std.specs.Prelude.{◌≡◌, ◌<◌, ◌+◌, None, length, IfOk};
ghost use Rattle.f77_tree.specs.declared.form.Form.{out-Form};
ghost use Rattle.f77_flow.specs.Labels as l;
ghost use Rattle.f77_semantics.specs.Program as program;
ghost use Rattle.f77_semantics.specs.Resolve as r;
ghost use Rattle.interp_data.specs.Meanings as m;
ghost use Rattle.interp_data.specs.Meant.{meant};
ghost use Rattle.interp_lower.specs.Pieces as p;
ghost use Rattle.interp_lower.specs.Lines as lines;

use super::numbers::{push_number, push_or_one};
use super::piece::{Line, Piece};
use super::simple::{condition_steps, ending_alone, simple};
use super::sites::sites_of;
use f77_flow::Control;
use f77_tree::{Expr, Form, List, Name};
use interp_code::{Ending, Step};
use interp_data::{Lookup, Meaning, copy_base, meaning_of};
use std::alloc::{AllocError, Global};

#[tactic(auto, using(crate::proofs::Preludes::preludes))]
fn block_if(
    alloc: Global,
    names: &Lookup,
    site: usize,
    e: &Expr,
    otherwise: u32,
) -> Result<Piece, AllocError>
    ensures { IfOk result (λ piece. lines.IsPiece piece (program.If (r.term (meant names.now) e.now site) otherwise)) }
{
    let (steps, _) = condition_steps(alloc, names, site, e)?;
    Ok(Piece {
        steps,
        ending: Ending::Branch(otherwise),
    })
}

#[tactic(auto, using(crate::proofs::Preludes::preludes))]
fn loop_steps(
    alloc: Global,
    names: &Lookup,
    site: usize,
    first: &Expr,
    last: &Expr,
    step: &Option<Expr>,
) -> Result<List<Step>, AllocError>
    ensures { IfOk result (λ steps. steps ≡ p.loop_steps (meant names.now) first.now last.now step.now site) }
{
    let mut steps = List::new(alloc);
    let middle = push_number(alloc, &mut steps, names, site, first)?;
    let next = push_number(alloc, &mut steps, names, middle, last)?;
    push_or_one(alloc, &mut steps, names, next, step)?;
    Ok(steps)
}

// A DO by what its variable stands for.
fn counted(alloc: Global, meaning: &Meaning, steps: List<Step>) -> Result<Piece, AllocError>
    ensures { IfOk result (λ piece. lines.IsLoop piece (m.meant_of meaning.now) steps) }
{
    match meaning {
        Meaning::Variable(_, base) => Ok(Piece {
            steps,
            ending: Ending::Count(copy_base(alloc, base)?),
        }),
        Meaning::Constant(_)
        | Meaning::Array(_, _)
        | Meaning::Function
        | Meaning::Intrinsic(_)
        | Meaning::Unknown => Ok(ending_alone(alloc, Ending::Nowhere)),
    }
}

fn do_loop(
    alloc: Global,
    names: &Lookup,
    site: usize,
    name: &Name,
    bounds: (&Expr, &Expr),
    step: &Option<Expr>,
) -> Result<Piece, AllocError>
    ensures { IfOk result (λ piece. lines.IsPiece piece (p.do_loop (meant names.now) name.now bounds.entry.0.now bounds.entry.1.now step.now site)) }
{
    let meaning = meaning_of(alloc, names, name)?;
    let steps = loop_steps(alloc, names, site, bounds.0, bounds.1, step)?;
    counted(alloc, &meaning, steps)
}

// A statement without another inside.
fn single(piece: Piece) -> Line
    ensures piece { result.piece ≡ piece }
    ensures inner { result.inner ≡ None }
{
    Line { piece, inner: None }
}

fn logical_if(
    alloc: Global,
    names: &Lookup,
    control: &Control,
    main: bool,
    site: usize,
    e: &Expr,
    inner: &Form,
) -> Result<Line, AllocError>
    ensures { IfOk result (λ line. lines.IsLine line (program.LogicalIf (r.term (meant names.now) e.now site) (r.simple (meant names.now) main (l.target control.now.statements.now) (site + r.sites (meant names.now) e.now) (out-Form inner.now)))) }
{
    let (steps, next) = condition_steps(alloc, names, site, e)?;
    let inner = simple(alloc, names, control, main, next, inner)?;
    Ok(Line {
        piece: Piece {
            steps,
            ending: Ending::Guard,
        },
        inner: Some(inner),
    })
}

// Statement k, whose form this is, from its first site on.
fn line_of(
    alloc: Global,
    names: &Lookup,
    control: &Control,
    main: bool,
    k: usize,
    site: usize,
    form: &Form,
) -> Result<Line, AllocError>
    requires { k < length control.now.statements.now }
    ensures { IfOk result (λ line. lines.IsLine line (r.statement_of (meant names.now) main control.now.statements.now k site (out-Form form.now))) }
{
    match form {
        Form::BlockIf(e) | Form::ElseIf(e) => {
            let piece = block_if(alloc, names, site, e, control.otherwise(k))?;
            Ok(single(piece))
        }
        Form::LogicalIf(e, inner) => {
            logical_if(alloc, names, control, main, site, e, inner.get())
        }
        Form::Do(_, name, first, last, step) => {
            let piece = do_loop(alloc, names, site, name, (first, last), step)?;
            Ok(single(piece))
        }
        Form::EndIf => Ok(single(ending_alone(alloc, Ending::Next))),
        _ => {
            let piece = simple(alloc, names, control, main, site, form)?;
            Ok(single(piece))
        }
    }
}

/// The statements of a unit. The first site of each follows the last of those before it.
pub fn lines_of(
    alloc: Global,
    names: &Lookup,
    control: &Control,
    main: bool,
) -> Result<List<Line>, AllocError>
    ensures { IfOk result (λ all. lines.AreLines all (r.statements_from (meant names.now) names.now.facts main control.now.statements.now 0 1 control.now.statements.now)) }
{
    let mut all = List::new(alloc);
    let mut site = 1;
    let statements = control.statements;
    for k in 0..statements.len() {
        let statement = &statements[k];
        all.push(line_of(alloc, names, control, main, k, site, &statement.form)?)?;
        site = after(site, sites_of(alloc, &names.facts, statement)?)?;
    }
    Ok(all)
}

fn after(site: usize, count: usize) -> Result<usize, AllocError>
    ensures { IfOk result (λ next. next ≡ site + count) }
{
    site.checked_add(count).ok_or(AllocError)
}

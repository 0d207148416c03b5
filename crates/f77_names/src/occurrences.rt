//! The names of a unit in the order of its text. Each function puts those of a part behind what was found before it.
ghost use Rattle.std.specs.Prelude.{◌≡◌, ◌++◌, ◌∷◌, [], map, flat_map, IfOk, OnOk};
ghost use Rattle.f77_names.specs.Occurrences as o;

use f77_tree::{DataConst, Declarator, Expr, Form, List, Name, Stmt, Unit, UnitKind};
use std::alloc::{AllocError, Global};

/// How a name occurs in the text of a unit.
#[derive(Clone, Copy, Debug, Drop, PartialEq, Eq)]
pub enum Manner {
    /// A function's own name in its head.
    ResultName,
    /// In the list of the head.
    Dummy,
    /// A declarator with bounds.
    Dimensioned,
    /// Before `=` in PARAMETER.
    Defined,
    External,
    Intrinsic,
    /// Behind CALL.
    Called,
    /// With a list in parentheses, in an expression, a target or an item of DATA.
    Listed,
    /// In any other way.
    Plain,
}

/// A name where it stands in the text.
#[derive(Drop)]
pub struct Occurrence {
    pub name: Name,
    pub manner: Manner,
}

type Found = List<Occurrence>;

fn push_name(
    alloc: Global,
    found: &mut Found,
    manner: Manner,
    name: &Name,
) -> Result<(), AllocError>
    ensures { OnOk result (found.new ≡ found.old ++ o.occurs manner name.now ∷ []) }
{
    found.push(Occurrence {
        name: name.copy(alloc)?,
        manner,
    })
}

fn push_names(
    alloc: Global,
    found: &mut Found,
    manner: Manner,
    names: &List<Name>,
) -> Result<(), AllocError>
    ensures { OnOk result (found.new ≡ found.old ++ map (o.occurs manner) names.now) }
{
    for name in names.as_slice() {
        push_name(alloc, found, manner, name)?;
    }
    Ok(())
}

#[tactic(auto, using(crate::proofs::Joined::joined))]
#[cycle(expressions)]
fn push_expr(alloc: Global, found: &mut Found, e: &Expr) -> Result<(), AllocError>
    ensures { OnOk result (found.new ≡ found.old ++ o.in_expr e.now) }
{
    match e {
        Expr::Int(_) | Expr::Truth(_) | Expr::Text(_) => Ok(()),
        Expr::Scalar(name) => push_name(alloc, found, Manner::Plain, name),
        Expr::Apply(name, list) => {
            push_name(alloc, found, Manner::Listed, name)?;
            push_list(alloc, found, list)
        }
        Expr::Paren(inner) | Expr::Neg(inner) | Expr::Plus(inner) | Expr::Not(inner) => {
            push_expr(alloc, found, inner.get())
        }
        Expr::Binary(_, a, b) => {
            push_expr(alloc, found, a.get())?;
            push_expr(alloc, found, b.get())
        }
    }
}

#[tactic(auto, using(crate::proofs::Joined::joined))]
#[cycle(expressions)]
fn push_list(alloc: Global, found: &mut Found, list: &List<Expr>) -> Result<(), AllocError>
    ensures { OnOk result (found.new ≡ found.old ++ flat_map o.in_expr list.now) }
{
    for e in list.as_slice() {
        push_expr(alloc, found, e)?;
    }
    Ok(())
}

fn push_optional(alloc: Global, found: &mut Found, e: &Option<Expr>) -> Result<(), AllocError>
    ensures { OnOk result (found.new ≡ found.old ++ o.in_optional e.now) }
{
    match e {
        Some(e) => push_expr(alloc, found, e),
        None => Ok(()),
    }
}

#[tactic(auto, using(crate::proofs::Joined::joined))]
fn push_bound(
    alloc: Global,
    found: &mut Found,
    bound: &(Option<Expr>, Option<Expr>),
) -> Result<(), AllocError>
    ensures { OnOk result (found.new ≡ found.old ++ o.in_bound bound.now) }
{
    push_optional(alloc, found, &bound.0)?;
    push_optional(alloc, found, &bound.1)
}

#[tactic(auto, using(crate::proofs::Joined::joined))]
fn push_bounds(
    alloc: Global,
    found: &mut Found,
    bounds: &List<(Option<Expr>, Option<Expr>)>,
) -> Result<(), AllocError>
    ensures { OnOk result (found.new ≡ found.old ++ flat_map o.in_bound bounds.now) }
{
    for bound in bounds.as_slice() {
        push_bound(alloc, found, bound)?;
    }
    Ok(())
}

fn declared_manner(bounds: &List<(Option<Expr>, Option<Expr>)>) -> Manner
    ensures { result ≡ o.declared_manner bounds.now }
{
    if bounds.len() == 0 {
        Manner::Plain
    } else {
        Manner::Dimensioned
    }
}

#[tactic(auto, using(crate::proofs::Joined::joined))]
fn push_declarator(alloc: Global, found: &mut Found, d: &Declarator) -> Result<(), AllocError>
    ensures { OnOk result (found.new ≡ found.old ++ o.in_declarator d.now) }
{
    push_name(alloc, found, declared_manner(&d.bounds), &d.name)?;
    push_bounds(alloc, found, &d.bounds)
}

#[tactic(auto, using(crate::proofs::Joined::joined))]
fn push_declarators(
    alloc: Global,
    found: &mut Found,
    all: &List<Declarator>,
) -> Result<(), AllocError>
    ensures { OnOk result (found.new ≡ found.old ++ flat_map o.in_declarator all.now) }
{
    for declarator in all.as_slice() {
        push_declarator(alloc, found, declarator)?;
    }
    Ok(())
}

#[tactic(auto, using(crate::proofs::Joined::joined))]
fn push_blocks(
    alloc: Global,
    found: &mut Found,
    blocks: &List<(Name, List<Declarator>)>,
) -> Result<(), AllocError>
    ensures { OnOk result (found.new ≡ found.old ++ flat_map o.in_block blocks.now) }
{
    for block in blocks.as_slice() {
        push_declarators(alloc, found, &block.1)?;
    }
    Ok(())
}

#[tactic(auto, using(crate::proofs::Joined::joined))]
fn push_definition(
    alloc: Global,
    found: &mut Found,
    definition: &(Name, Expr),
) -> Result<(), AllocError>
    ensures { OnOk result (found.new ≡ found.old ++ o.in_definition definition.now) }
{
    push_name(alloc, found, Manner::Defined, &definition.0)?;
    push_expr(alloc, found, &definition.1)
}

#[tactic(auto, using(crate::proofs::Joined::joined))]
fn push_definitions(
    alloc: Global,
    found: &mut Found,
    all: &List<(Name, Expr)>,
) -> Result<(), AllocError>
    ensures { OnOk result (found.new ≡ found.old ++ flat_map o.in_definition all.now) }
{
    for definition in all.as_slice() {
        push_definition(alloc, found, definition)?;
    }
    Ok(())
}

#[tactic(auto, using(crate::proofs::Joined::joined))]
fn push_constant(alloc: Global, found: &mut Found, c: &DataConst) -> Result<(), AllocError>
    ensures { OnOk result (found.new ≡ found.old ++ o.in_constant c.now) }
{
    push_optional(alloc, found, &c.repeat)?;
    push_expr(alloc, found, &c.value)
}

#[tactic(auto, using(crate::proofs::Joined::joined))]
fn push_constants(alloc: Global, found: &mut Found, all: &List<DataConst>) -> Result<(), AllocError>
    ensures { OnOk result (found.new ≡ found.old ++ flat_map o.in_constant all.now) }
{
    for constant in all.as_slice() {
        push_constant(alloc, found, constant)?;
    }
    Ok(())
}

#[tactic(auto, using(crate::proofs::Joined::joined))]
fn push_run(
    alloc: Global,
    found: &mut Found,
    run: &(List<Expr>, List<DataConst>),
) -> Result<(), AllocError>
    ensures { OnOk result (found.new ≡ found.old ++ o.in_run run.now) }
{
    push_list(alloc, found, &run.0)?;
    push_constants(alloc, found, &run.1)
}

#[tactic(auto, using(crate::proofs::Joined::joined))]
fn push_runs(
    alloc: Global,
    found: &mut Found,
    runs: &List<(List<Expr>, List<DataConst>)>,
) -> Result<(), AllocError>
    ensures { OnOk result (found.new ≡ found.old ++ flat_map o.in_run runs.now) }
{
    for run in runs.as_slice() {
        push_run(alloc, found, run)?;
    }
    Ok(())
}

#[tactic(auto, using(crate::proofs::Joined::joined))]
fn push_two(alloc: Global, found: &mut Found, first: &Expr, second: &Expr) -> Result<(), AllocError>
    ensures { OnOk result (found.new ≡ found.old ++ (o.in_expr first.now ++ o.in_expr second.now)) }
{
    push_expr(alloc, found, first)?;
    push_expr(alloc, found, second)
}

#[tactic(auto, using(crate::proofs::Joined::joined))]
fn push_parts(
    alloc: Global,
    found: &mut Found,
    from: &Expr,
    to: &Expr,
    step: &Option<Expr>,
) -> Result<(), AllocError>
    ensures { OnOk result (found.new ≡ found.old ++ (o.in_expr from.now ++ (o.in_expr to.now ++ o.in_optional step.now))) }
{
    push_expr(alloc, found, from)?;
    push_expr(alloc, found, to)?;
    push_optional(alloc, found, step)
}

#[tactic(auto, using(crate::proofs::Joined::joined))]
fn push_form(alloc: Global, found: &mut Found, form: &Form) -> Result<(), AllocError>
    ensures { OnOk result (found.new ≡ found.old ++ o.in_form form.now) }
{
    match form {
        Form::LogicalIf(test, inner) => {
            push_expr(alloc, found, test)?;
            push_form(alloc, found, inner.get())
        }
        Form::Typed(_, all) | Form::Dimension(all) => push_declarators(alloc, found, all),
        Form::Common(blocks) => push_blocks(alloc, found, blocks),
        Form::Parameter(all) => push_definitions(alloc, found, all),
        Form::External(names) => push_names(alloc, found, Manner::External, names),
        Form::Intrinsic(names) => push_names(alloc, found, Manner::Intrinsic, names),
        Form::Save(names, _) => push_names(alloc, found, Manner::Plain, names),
        Form::DataRuns(runs) => push_runs(alloc, found, runs),
        Form::Assign(target, value) => push_two(alloc, found, target, value),
        Form::BlockIf(e) | Form::ElseIf(e) => push_expr(alloc, found, e),
        Form::ArithmeticIf(e, _, _, _) | Form::ComputedGoTo(_, e) => push_expr(alloc, found, e),
        Form::Do(_, name, from, to, step) => {
            push_name(alloc, found, Manner::Plain, name)?;
            push_parts(alloc, found, from, to, step)
        }
        Form::Call(name, actuals) => {
            push_name(alloc, found, Manner::Called, name)?;
            push_list(alloc, found, actuals)
        }
        Form::Print(list) | Form::Read(list) => push_list(alloc, found, list),
        Form::Head(_, _, _, _) | Form::Implicit(_) | Form::ImplicitNone => Ok(()),
        Form::Else | Form::EndIf | Form::GoTo(_) | Form::Continue => Ok(()),
        Form::Return | Form::End | Form::Stop => Ok(()),
    }
}

fn push_own_name(
    alloc: Global,
    found: &mut Found,
    kind: UnitKind,
    name: &Name,
) -> Result<(), AllocError>
    ensures { OnOk result (found.new ≡ found.old ++ o.own_name kind name.now) }
{
    match kind {
        UnitKind::Function => push_name(alloc, found, Manner::ResultName, name),
        UnitKind::Main | UnitKind::Subroutine | UnitKind::BlockData => Ok(()),
    }
}

#[tactic(auto, using(crate::proofs::Joined::joined))]
fn push_statements(alloc: Global, found: &mut Found, all: &List<Stmt>) -> Result<(), AllocError>
    ensures { OnOk result (found.new ≡ found.old ++ flat_map o.in_statement all.now) }
{
    for statement in all.as_slice() {
        push_form(alloc, found, &statement.form)?;
    }
    Ok(())
}

/// The names of a unit in the order of its text, each with how it occurs.
#[tactic(auto, using(crate::proofs::Joined::joined))]
pub fn occurrences_of(alloc: Global, unit: &Unit) -> Result<List<Occurrence>, AllocError>
    ensures { IfOk result (λ all. all ≡ o.occurrences unit.now) }
{
    let mut found = List::new(alloc);
    push_own_name(alloc, &mut found, unit.kind, &unit.name)?;
    push_names(alloc, &mut found, Manner::Dummy, &unit.dummies)?;
    push_statements(alloc, &mut found, &unit.statements)?;
    Ok(found)
}

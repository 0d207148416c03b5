//! What the text of a unit says to the program. Each function puts what a part says behind what was found before it.
ghost use Rattle.std.specs.Prelude.{◌≡◌, ◌++◌, ◌∷◌, [], map, flat_map, IfOk, OnOk};
ghost use Rattle.f77_tree.specs.declared.expr.Expr.{out-Expr};
ghost use Rattle.prog_texts.specs.Mentions as m;

use super::mentions::{Actual, Mention, Site, Wanted};
use check_types::expression_type;
use f77_names::{Attributes, Facts, is_function, name_type};
use f77_tree::{DataConst, Declarator, Expr, Form, List, Name, Stmt, Unit};
use std::alloc::{AllocError, Global};

type Found = List<Mention>;

fn is_array(facts: &Facts, e: &Expr) -> bool
    ensures { result ≡ m.is_array facts.now (out-Expr e.now) }
{
    match e {
        Expr::Scalar(name) => facts.attributes.arrays.contains(name),
        _ => false,
    }
}

fn is_element(facts: &Facts, e: &Expr) -> bool
    ensures { result ≡ m.is_element facts.now (out-Expr e.now) }
{
    match e {
        Expr::Apply(name, _) => facts.attributes.arrays.contains(name),
        _ => false,
    }
}

fn is_procedure(facts: &Facts, e: &Expr) -> bool
    ensures { result ≡ m.is_procedure facts.now (out-Expr e.now) }
{
    match e {
        Expr::Scalar(name) => {
            facts.attributes.external.contains(name) | facts.attributes.intrinsic.contains(name)
        }
        _ => false,
    }
}

fn actual(facts: &Facts, e: &Expr) -> Actual
    ensures { result ≡ m.actual facts.now e.now }
{
    Actual {
        is_array: is_array(facts, e),
        is_element: is_element(facts, e),
        is_procedure: is_procedure(facts, e),
        ty: expression_type(facts, e),
    }
}

#[tactic(auto, using(crate::proofs::Said::joined))]
fn actuals_of(alloc: Global, facts: &Facts, list: &List<Expr>) -> Result<List<Actual>, AllocError>
    ensures { IfOk result (λ all. all ≡ map (m.actual facts.now) list.now) }
{
    let mut all = List::new(alloc);
    for e in list.as_slice() {
        all.push(actual(facts, e))?;
    }
    Ok(all)
}

fn push_site(
    alloc: Global,
    found: &mut Found,
    facts: &Facts,
    line: u32,
    wanted: Wanted,
    name: &Name,
    list: &List<Expr>,
) -> Result<(), AllocError>
    ensures { OnOk result (found.new ≡ found.old ++ m.site facts.now line wanted name.now list.now ∷ []) }
{
    let actuals = actuals_of(alloc, facts, list)?;
    let callee = name.copy(alloc)?;
    found.push(Mention::Site(Site {
        line,
        callee,
        wanted,
        actuals,
    }))
}

#[tactic(auto, using(crate::proofs::Said::joined))]
fn push_dummy(found: &mut Found, dummy: bool, line: u32) -> Result<(), AllocError>
    ensures { OnOk result (found.new ≡ found.old ++ m.dummy_procedure dummy line) }
{
    if dummy {
        return found.push(Mention::DummyProcedure(line));
    }
    Ok(())
}

fn is_dummy_procedure(a: &Attributes, name: &Name) -> bool
    ensures { result ≡ m.is_dummy_procedure a.now name.now }
{
    a.dummies.contains(name) & !a.arrays.contains(name)
}

fn push_reference(
    alloc: Global,
    found: &mut Found,
    facts: &Facts,
    line: u32,
    name: &Name,
    list: &List<Expr>,
) -> Result<(), AllocError>
    ensures { OnOk result (found.new ≡ found.old ++ m.reference facts.now line name.now list.now) }
{
    if is_function(&facts.attributes, name) {
        let ty = name_type(facts, name);
        return push_site(alloc, found, facts, line, Wanted::Function(ty), name, list);
    }
    push_dummy(found, is_dummy_procedure(&facts.attributes, name), line)
}

#[tactic(auto, using(crate::proofs::Said::joined))]
fn push_call(
    alloc: Global,
    found: &mut Found,
    facts: &Facts,
    line: u32,
    name: &Name,
    list: &List<Expr>,
) -> Result<(), AllocError>
    ensures { OnOk result (found.new ≡ found.old ++ m.call facts.now line name.now list.now) }
{
    push_site(alloc, found, facts, line, Wanted::Subroutine, name, list)?;
    push_dummy(found, facts.attributes.dummies.contains(name), line)
}

#[tactic(auto, using(crate::proofs::Said::joined))]
#[cycle(expressions)]
fn push_expr(
    alloc: Global,
    found: &mut Found,
    facts: &Facts,
    line: u32,
    e: &Expr,
) -> Result<(), AllocError>
    ensures { OnOk result (found.new ≡ found.old ++ m.in_expr facts.now line e.now) }
{
    match e {
        Expr::Int(_) | Expr::Truth(_) | Expr::Text(_) | Expr::Scalar(_) => Ok(()),
        Expr::Apply(name, list) => {
            push_reference(alloc, found, facts, line, name, list)?;
            push_list(alloc, found, facts, line, list)
        }
        Expr::Paren(inner) | Expr::Neg(inner) | Expr::Plus(inner) | Expr::Not(inner) => {
            push_expr(alloc, found, facts, line, inner.get())
        }
        Expr::Binary(_, a, b) => {
            push_expr(alloc, found, facts, line, a.get())?;
            push_expr(alloc, found, facts, line, b.get())
        }
    }
}

#[tactic(auto, using(crate::proofs::Said::joined))]
#[cycle(expressions)]
fn push_list(
    alloc: Global,
    found: &mut Found,
    facts: &Facts,
    line: u32,
    list: &List<Expr>,
) -> Result<(), AllocError>
    ensures { OnOk result (found.new ≡ found.old ++ flat_map (m.in_expr facts.now line) list.now) }
{
    for e in list.as_slice() {
        push_expr(alloc, found, facts, line, e)?;
    }
    Ok(())
}

fn push_optional(
    alloc: Global,
    found: &mut Found,
    facts: &Facts,
    line: u32,
    e: &Option<Expr>,
) -> Result<(), AllocError>
    ensures { OnOk result (found.new ≡ found.old ++ m.in_optional facts.now line e.now) }
{
    match e {
        Some(e) => push_expr(alloc, found, facts, line, e),
        None => Ok(()),
    }
}

#[tactic(auto, using(crate::proofs::Said::joined))]
fn push_declarator(
    alloc: Global,
    found: &mut Found,
    facts: &Facts,
    line: u32,
    d: &Declarator,
) -> Result<(), AllocError>
    ensures { OnOk result (found.new ≡ found.old ++ m.in_declarator facts.now line d.now) }
{
    for bound in d.bounds.as_slice() {
        push_bound(alloc, found, facts, line, bound)?;
    }
    Ok(())
}

#[tactic(auto, using(crate::proofs::Said::joined))]
fn push_bound(
    alloc: Global,
    found: &mut Found,
    facts: &Facts,
    line: u32,
    bound: &(Option<Expr>, Option<Expr>),
) -> Result<(), AllocError>
    ensures { OnOk result (found.new ≡ found.old ++ m.in_bound facts.now line bound.now) }
{
    push_optional(alloc, found, facts, line, &bound.0)?;
    push_optional(alloc, found, facts, line, &bound.1)
}

#[tactic(auto, using(crate::proofs::Said::joined))]
fn push_declarators(
    alloc: Global,
    found: &mut Found,
    facts: &Facts,
    line: u32,
    all: &List<Declarator>,
) -> Result<(), AllocError>
    ensures { OnOk result (found.new ≡ found.old ++ flat_map (m.in_declarator facts.now line) all.now) }
{
    for declarator in all.as_slice() {
        push_declarator(alloc, found, facts, line, declarator)?;
    }
    Ok(())
}

fn push_block_name(
    alloc: Global,
    found: &mut Found,
    line: u32,
    name: &Name,
) -> Result<(), AllocError>
    ensures { OnOk result (found.new ≡ found.old ++ m.block name.now line ∷ []) }
{
    let name = name.copy(alloc)?;
    found.push(Mention::Block(name, line))
}

#[tactic(auto, using(crate::proofs::Said::joined))]
fn push_block(
    alloc: Global,
    found: &mut Found,
    facts: &Facts,
    line: u32,
    block: &(Name, List<Declarator>),
) -> Result<(), AllocError>
    ensures { OnOk result (found.new ≡ found.old ++ m.in_block facts.now line block.now) }
{
    push_block_name(alloc, found, line, &block.0)?;
    push_declarators(alloc, found, facts, line, &block.1)
}

#[tactic(auto, using(crate::proofs::Said::joined))]
fn push_blocks(
    alloc: Global,
    found: &mut Found,
    facts: &Facts,
    line: u32,
    blocks: &List<(Name, List<Declarator>)>,
) -> Result<(), AllocError>
    ensures { OnOk result (found.new ≡ found.old ++ flat_map (m.in_block facts.now line) blocks.now) }
{
    for block in blocks.as_slice() {
        push_block(alloc, found, facts, line, block)?;
    }
    Ok(())
}

#[tactic(auto, using(crate::proofs::Said::joined))]
fn push_definitions(
    alloc: Global,
    found: &mut Found,
    facts: &Facts,
    line: u32,
    all: &List<(Name, Expr)>,
) -> Result<(), AllocError>
    ensures { OnOk result (found.new ≡ found.old ++ flat_map (m.in_definition facts.now line) all.now) }
{
    for definition in all.as_slice() {
        push_expr(alloc, found, facts, line, &definition.1)?;
    }
    Ok(())
}

#[tactic(auto, using(crate::proofs::Said::joined))]
fn push_externals(
    found: &mut Found,
    facts: &Facts,
    line: u32,
    names: &List<Name>,
) -> Result<(), AllocError>
    ensures { OnOk result (found.new ≡ found.old ++ flat_map (m.in_external facts.now line) names.now) }
{
    for name in names.as_slice() {
        push_dummy(found, facts.attributes.dummies.contains(name), line)?;
    }
    Ok(())
}

#[tactic(auto, using(crate::proofs::Said::joined))]
fn push_constant(
    alloc: Global,
    found: &mut Found,
    facts: &Facts,
    line: u32,
    c: &DataConst,
) -> Result<(), AllocError>
    ensures { OnOk result (found.new ≡ found.old ++ m.in_constant facts.now line c.now) }
{
    push_optional(alloc, found, facts, line, &c.repeat)?;
    push_expr(alloc, found, facts, line, &c.value)
}

#[tactic(auto, using(crate::proofs::Said::joined))]
fn push_constants(
    alloc: Global,
    found: &mut Found,
    facts: &Facts,
    line: u32,
    all: &List<DataConst>,
) -> Result<(), AllocError>
    ensures { OnOk result (found.new ≡ found.old ++ flat_map (m.in_constant facts.now line) all.now) }
{
    for constant in all.as_slice() {
        push_constant(alloc, found, facts, line, constant)?;
    }
    Ok(())
}

#[tactic(auto, using(crate::proofs::Said::joined))]
fn push_run(
    alloc: Global,
    found: &mut Found,
    facts: &Facts,
    line: u32,
    run: &(List<Expr>, List<DataConst>),
) -> Result<(), AllocError>
    ensures { OnOk result (found.new ≡ found.old ++ m.in_run facts.now line run.now) }
{
    push_list(alloc, found, facts, line, &run.0)?;
    push_constants(alloc, found, facts, line, &run.1)
}

#[tactic(auto, using(crate::proofs::Said::joined))]
fn push_runs(
    alloc: Global,
    found: &mut Found,
    facts: &Facts,
    line: u32,
    runs: &List<(List<Expr>, List<DataConst>)>,
) -> Result<(), AllocError>
    ensures { OnOk result (found.new ≡ found.old ++ flat_map (m.in_run facts.now line) runs.now) }
{
    for run in runs.as_slice() {
        push_run(alloc, found, facts, line, run)?;
    }
    Ok(())
}

#[tactic(auto, using(crate::proofs::Said::joined))]
fn push_two(
    alloc: Global,
    found: &mut Found,
    facts: &Facts,
    line: u32,
    first: &Expr,
    second: &Expr,
) -> Result<(), AllocError>
    ensures { OnOk result (found.new ≡ found.old ++ (m.in_expr facts.now line first.now ++ m.in_expr facts.now line second.now)) }
{
    push_expr(alloc, found, facts, line, first)?;
    push_expr(alloc, found, facts, line, second)
}

#[tactic(auto, using(crate::proofs::Said::joined))]
fn push_parts(
    alloc: Global,
    found: &mut Found,
    facts: &Facts,
    line: u32,
    from: &Expr,
    to: &Expr,
    step: &Option<Expr>,
) -> Result<(), AllocError>
    ensures { OnOk result (found.new ≡ found.old ++ (m.in_expr facts.now line from.now ++ (m.in_expr facts.now line to.now ++ m.in_optional facts.now line step.now))) }
{
    push_expr(alloc, found, facts, line, from)?;
    push_expr(alloc, found, facts, line, to)?;
    push_optional(alloc, found, facts, line, step)
}

#[tactic(auto, using(crate::proofs::Said::joined))]
fn push_form(
    alloc: Global,
    found: &mut Found,
    facts: &Facts,
    line: u32,
    form: &Form,
) -> Result<(), AllocError>
    ensures { OnOk result (found.new ≡ found.old ++ m.in_form facts.now line form.now) }
{
    match form {
        Form::LogicalIf(test, inner) => {
            push_expr(alloc, found, facts, line, test)?;
            push_form(alloc, found, facts, line, inner.get())
        }
        Form::Typed(_, all) | Form::Dimension(all) => {
            push_declarators(alloc, found, facts, line, all)
        }
        Form::Common(blocks) => push_blocks(alloc, found, facts, line, blocks),
        Form::Parameter(all) => push_definitions(alloc, found, facts, line, all),
        Form::External(names) => push_externals(found, facts, line, names),
        Form::DataRuns(runs) => push_runs(alloc, found, facts, line, runs),
        Form::Assign(target, value) => push_two(alloc, found, facts, line, target, value),
        Form::BlockIf(e) | Form::ElseIf(e) => push_expr(alloc, found, facts, line, e),
        Form::ArithmeticIf(e, _, _, _) | Form::ComputedGoTo(_, e) => {
            push_expr(alloc, found, facts, line, e)
        }
        Form::Do(_, _, from, to, step) => push_parts(alloc, found, facts, line, from, to, step),
        Form::Call(name, actuals) => {
            push_call(alloc, found, facts, line, name, actuals)?;
            push_list(alloc, found, facts, line, actuals)
        }
        Form::Print(list) | Form::Read(list) => push_list(alloc, found, facts, line, list),
        Form::Intrinsic(_) | Form::Save(_, _) | Form::Continue => Ok(()),
        Form::Head(_, _, _, _) | Form::Implicit(_) | Form::ImplicitNone => Ok(()),
        Form::Else | Form::EndIf | Form::GoTo(_) => Ok(()),
        Form::Return | Form::End | Form::Stop => Ok(()),
    }
}

#[tactic(auto, using(crate::proofs::Said::joined))]
fn push_statements(
    alloc: Global,
    found: &mut Found,
    facts: &Facts,
    all: &List<Stmt>,
) -> Result<(), AllocError>
    ensures { OnOk result (found.new ≡ found.old ++ flat_map (m.in_statement facts.now) all.now) }
{
    for statement in all.as_slice() {
        push_form(alloc, found, facts, statement.line, &statement.form)?;
    }
    Ok(())
}

/// What the statements of a unit say, in the order of its text, given its facts.
#[tactic(auto, using(crate::proofs::Said::joined))]
pub fn mentions_with(alloc: Global, facts: &Facts, unit: &Unit) -> Result<List<Mention>, AllocError>
    ensures { IfOk result (λ all. all ≡ m.mentions_with facts.now unit.now) }
{
    let mut found = List::new(alloc);
    push_statements(alloc, &mut found, facts, &unit.statements)?;
    Ok(found)
}

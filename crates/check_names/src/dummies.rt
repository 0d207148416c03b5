//! Dummies that stand in COMMON, among DATA's items or in SAVE.
ghost use Rattle.std.specs.Prelude.{◌≡◌, map, length, IfOk};
ghost use Rattle.std.specs.List.{list_any, range_with_len};
ghost use Rattle.f77_tree.specs.declared.expr.Expr.TheViews.{out-Expr};
ghost use Rattle.f77_tree.specs.declared.form.Form.TheViews.{out-Form};
ghost use Rattle.check_names.specs.Dummies as d;

use f77_names::Attributes;
use f77_tree::{DataConst, Declarator, Expr, Form, List, Name, Unit};
use std::alloc::{AllocError, Global};

fn is_dummy(a: &Attributes, name: &Name) -> bool
    ensures { result ≡ d.is_dummy a.now name.now }
{
    a.dummies.contains(name)
}

fn declares_dummy(a: &Attributes, declarator: &Declarator) -> bool
    ensures { result ≡ d.declares_dummy a.now declarator.now }
{
    is_dummy(a, &declarator.name)
}

fn in_block(a: &Attributes, block: &(Name, List<Declarator>)) -> bool
    ensures { result ≡ d.in_block a.now block.now }
{
    block.1.as_slice().iter().any(|one| declares_dummy(a, one))
}

fn is_item(a: &Attributes, item: &Expr) -> bool
    ensures { result ≡ d.is_item a.now item.now }
{
    match item {
        Expr::Scalar(name) | Expr::Apply(name, _) => is_dummy(a, name),
        _ => false,
    }
}

fn in_run(a: &Attributes, run: &(List<Expr>, List<DataConst>)) -> bool
    ensures { result ≡ d.in_run a.now run.now }
{
    run.0.as_slice().iter().any(|item| is_item(a, item))
}

fn in_blocks(a: &Attributes, blocks: &List<(Name, List<Declarator>)>) -> bool
    ensures { result ≡ list_any (d.in_block a.now) blocks.now }
{
    blocks.as_slice().iter().any(|block| in_block(a, block))
}

fn in_runs(a: &Attributes, runs: &List<(List<Expr>, List<DataConst>)>) -> bool
    ensures { result ≡ list_any (d.in_run a.now) runs.now }
{
    runs.as_slice().iter().any(|run| in_run(a, run))
}

fn in_names(a: &Attributes, names: &List<Name>) -> bool
    ensures { result ≡ list_any (d.is_dummy a.now) names.now }
{
    names.as_slice().iter().any(|name| is_dummy(a, name))
}

fn displaces(a: &Attributes, form: &Form) -> bool
    ensures { result ≡ d.displaces a.now (out-Form form.now) }
{
    match form {
        Form::Common(blocks) => in_blocks(a, blocks),
        Form::DataRuns(runs) => in_runs(a, runs),
        Form::Save(names, _) => in_names(a, names),
        _ => false,
    }
}

/// For each statement whether a dummy stands in it where none may stand.
pub fn displaced_flags(alloc: Global, a: &Attributes, unit: &Unit) -> Result<List<bool>, AllocError>
    ensures { IfOk result (λ flags. flags ≡ map (d.displaces_at a.now unit.now) (range_with_len 0 (length unit.now.statements))) }
{
    let mut flags = List::new(alloc);
    for statement in unit.statements.as_slice() {
        flags.push(displaces(a, &statement.form))?;
    }
    Ok(flags)
}

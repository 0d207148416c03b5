//! The weight of a unit. Each function adds the weight of a part to a total, which stands still at the greatest u64.
ghost use Rattle.std.specs.Prelude.{◌≡◌, ◌+◌, min, length, sum_by};
ghost use Rattle.f77_tree.specs.Weight as w;

use super::expr::Expr;
use super::form::{DataConst, Declarator, Form};
use super::name::Name;
use super::unit::{Stmt, Unit};
use sqlite_items::Items as List;

fn add(total: u64, more: usize) -> u64
    ensures { result ≡ min (total + more) w.most }
{
    total.saturating_add(more as u64)
}

#[tactic(auto, using(crate::proofs::Sums::weights))]
#[cycle(weigh)]
fn add_expr(total: u64, e: &Expr) -> u64
    ensures { result ≡ min (total + w.weight e.now) w.most }
{
    match e {
        Expr::Int(_) | Expr::Truth(_) | Expr::Scalar(_) => add(total, 1),
        Expr::Text(bytes) => add(add(total, 1), bytes.len()),
        Expr::Apply(_, list) => add_list(add(total, 1), list),
        Expr::Paren(inner) => add_expr(total, inner.get()),
        Expr::Neg(inner) | Expr::Plus(inner) | Expr::Not(inner) => {
            add_expr(add(total, 1), inner.get())
        }
        Expr::Binary(_, a, b) => add_expr(add_expr(add(total, 1), a.get()), b.get()),
    }
}

#[tactic(auto, using(crate::proofs::Sums::weights))]
#[cycle(weigh)]
fn add_list(total: u64, list: &List<Expr>) -> u64
    ensures { result ≡ min (total + sum_by w.weight list.now) w.most }
{
    let mut sum = total;
    for e in list.as_slice() {
        sum = add_expr(sum, e);
    }
    sum
}

fn add_optional(total: u64, e: &Option<Expr>) -> u64
    ensures { result ≡ min (total + w.optional_weight e.now) w.most }
{
    match e {
        Some(e) => add_expr(total, e),
        None => total,
    }
}

fn add_bounds(total: u64, bounds: &List<(Option<Expr>, Option<Expr>)>) -> u64
    ensures { result ≡ min (total + sum_by w.bound_weight bounds.now) w.most }
{
    let mut sum = total;
    for bound in bounds.as_slice() {
        sum = add_optional(add_optional(sum, &bound.0), &bound.1);
    }
    sum
}

fn add_declarators(total: u64, all: &List<Declarator>) -> u64
    ensures { result ≡ min (total + sum_by w.declarator_weight all.now) w.most }
{
    let mut sum = total;
    for declarator in all.as_slice() {
        sum = add_bounds(add(sum, 1), &declarator.bounds);
    }
    sum
}

fn add_block(total: u64, name: &Name) -> u64
    ensures { result ≡ min (total + w.block_weight name.now) w.most }
{
    if name.as_bytes().is_empty() {
        total
    } else {
        add(total, 1)
    }
}

fn add_common(total: u64, blocks: &List<(Name, List<Declarator>)>) -> u64
    ensures { result ≡ min (total + sum_by w.common_weight blocks.now) w.most }
{
    let mut sum = total;
    for block in blocks.as_slice() {
        sum = add_declarators(add_block(sum, &block.0), &block.1);
    }
    sum
}

fn add_constants(total: u64, all: &List<(Name, Expr)>) -> u64
    ensures { result ≡ min (total + sum_by w.constant_weight all.now) w.most }
{
    let mut sum = total;
    for constant in all.as_slice() {
        sum = add_expr(add(sum, 1), &constant.1);
    }
    sum
}

fn add_data(total: u64, all: &List<DataConst>) -> u64
    ensures { result ≡ min (total + sum_by w.data_weight all.now) w.most }
{
    let mut sum = total;
    for constant in all.as_slice() {
        sum = add_expr(add_optional(sum, &constant.repeat), &constant.value);
    }
    sum
}

fn add_runs(total: u64, runs: &List<(List<Expr>, List<DataConst>)>) -> u64
    ensures { result ≡ min (total + sum_by w.run_weight runs.now) w.most }
{
    let mut sum = total;
    for run in runs.as_slice() {
        sum = add_data(add_list(sum, &run.0), &run.1);
    }
    sum
}

fn add_form(total: u64, form: &Form) -> u64
    ensures { result ≡ min (total + w.form_weight form.now) w.most }
{
    match form {
        Form::LogicalIf(test, inner) => add_form(add(add_expr(total, test), 1), inner.get()),
        Form::Head(_, _, _, dummies) => add(add(total, 1), dummies.len()),
        Form::Typed(_, all) | Form::Dimension(all) => add_declarators(total, all),
        Form::Common(blocks) => add_common(total, blocks),
        Form::Parameter(all) => add_constants(total, all),
        Form::External(names) | Form::Intrinsic(names) => add(total, names.len()),
        Form::Save(names, blocks) => add(add(total, names.len()), blocks.len()),
        Form::DataRuns(runs) => add_runs(total, runs),
        Form::Assign(target, value) => add_expr(add_expr(total, target), value),
        Form::BlockIf(test) | Form::ElseIf(test) => add_expr(total, test),
        Form::ArithmeticIf(value, _, _, _) => add(add_expr(total, value), 3),
        Form::GoTo(_) => add(total, 1),
        Form::ComputedGoTo(labels, index) => add_expr(add(total, labels.len()), index),
        Form::Do(_, _, from, to, step) => {
            add_optional(add_expr(add_expr(add(total, 2), from), to), step)
        }
        Form::Call(_, actuals) => add_list(add(total, 1), actuals),
        Form::Print(list) | Form::Read(list) => add_list(total, list),
        Form::Implicit(_) | Form::ImplicitNone | Form::Else | Form::EndIf => total,
        Form::Continue | Form::Return | Form::End | Form::Stop => total,
    }
}

fn add_statements(total: u64, all: &List<Stmt>) -> u64
    ensures { result ≡ min (total + sum_by w.statement_weight all.now) w.most }
{
    let mut sum = total;
    for statement in all.as_slice() {
        sum = add_form(add(sum, 1), &statement.form);
    }
    sum
}

/// The weight of a unit, or the greatest u64 where it is more.
pub fn weight(unit: &Unit) -> u64
    ensures { result ≡ min (w.unit_weight unit.now) w.most }
{
    add_statements(0, &unit.statements)
}

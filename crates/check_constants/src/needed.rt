//! Where a constant expression is needed.
ghost use Rattle.std.specs.Prelude.{◌≡◌, IfOk, OnOk};
ghost use Rattle.std.specs.List.{list_any};
ghost use Rattle.f77_tree.specs.declared.expr.Expr.{out-Expr};
ghost use Rattle.f77_tree.specs.declared.form.Form.TheViews.{out-Form};
ghost use Rattle.f77_values.specs.Tables.{is_among};
ghost use Rattle.f77_values.specs.Sizes as s;
ghost use Rattle.check_constants.specs.Defined as m;
ghost use Rattle.check_constants.specs.Expressions as x;
ghost use Rattle.check_constants.specs.Needed as n;

use super::defined::{Defined, define};
use super::expressions::judge;
use super::names::is_adjustable;
use f77_names::Facts;
use f77_store::Place;
use f77_tree::{DataConst, Declarator, Expr, Form, List, Name, Stmt, Value};
use f77_values::{Bounds, Names, Table, lower, upper};
use std::alloc::{AllocError, Global};

/// Whether an expression is constant: named constants of these, integers and truth values, in parentheses and between operators.
#[tactic(auto, using(crate::proofs::Layers::layers))]
pub fn is_constant(names: &Names, e: &Expr) -> bool
    ensures { result ≡ x.is_made_of (is_among names.now) e.now }
{
    match e {
        Expr::Int(_) | Expr::Truth(_) => true,
        Expr::Scalar(name) => names.contains(name),
        Expr::Paren(inner) | Expr::Neg(inner) | Expr::Plus(inner) | Expr::Not(inner) => {
            is_constant(names, inner.get())
        }
        Expr::Binary(_, a, b) => is_constant(names, a.get()) & is_constant(names, b.get()),
        Expr::Text(_) | Expr::Apply(_, _) => false,
    }
}

fn is_known(facts: &Facts, commons: &Table<Place>, names: &Names, name: &Name) -> bool
    ensures { result ≡ n.is_known facts.now commons.now names.now name.now }
{
    names.contains(name) | is_adjustable(facts, commons, name)
}

#[tactic(auto, using(crate::proofs::Layers::layers))]
fn has_known(facts: &Facts, commons: &Table<Place>, names: &Names, e: &Expr) -> bool
    ensures { result ≡ x.is_made_of (n.is_known facts.now commons.now names.now) e.now }
{
    match e {
        Expr::Int(_) | Expr::Truth(_) => true,
        Expr::Scalar(name) => is_known(facts, commons, names, name),
        Expr::Paren(inner) | Expr::Neg(inner) | Expr::Plus(inner) | Expr::Not(inner) => {
            has_known(facts, commons, names, inner.get())
        }
        Expr::Binary(_, a, b) => {
            has_known(facts, commons, names, a.get()) & has_known(facts, commons, names, b.get())
        }
        Expr::Text(_) | Expr::Apply(_, _) => false,
    }
}

fn is_no_constant(defined: &Defined, e: &Expr) -> bool
    ensures { result ≡ n.is_no_constant defined.now e.now }
{
    !is_constant(&defined.names, e) | judge(&defined.values, e).zero_divisor
}

fn is_no_bound(
    facts: &Facts,
    commons: &Table<Place>,
    defined: &Defined,
    dummy: bool,
    e: &Expr,
) -> bool
    ensures { result ≡ n.is_no_bound facts.now commons.now defined.now dummy e.now }
{
    if dummy {
        return !has_known(facts, commons, &defined.names, e);
    }
    is_no_constant(defined, e)
}

fn lower_lacks(
    facts: &Facts,
    commons: &Table<Place>,
    defined: &Defined,
    dummy: bool,
    bound: &Option<Expr>,
) -> bool
    ensures { result ≡ n.lower_lacks facts.now commons.now defined.now dummy bound.now }
{
    match bound {
        Some(e) => is_no_bound(facts, commons, defined, dummy, e),
        None => false,
    }
}

fn upper_lacks(
    facts: &Facts,
    commons: &Table<Place>,
    defined: &Defined,
    dummy: bool,
    last: bool,
    bound: &Option<Expr>,
) -> bool
    ensures { result ≡ n.upper_lacks facts.now commons.now defined.now dummy last bound.now }
{
    match bound {
        Some(e) => is_no_bound(facts, commons, defined, dummy, e),
        None => !(dummy & last),
    }
}

fn is_reversed(constants: &Table<Value>, bound: &(Option<Expr>, Option<Expr>)) -> bool
    ensures { result ≡ n.reversed (s.lower constants.now bound.now.0) (s.upper constants.now bound.now.1) }
{
    match (lower(constants, &bound.0), upper(constants, &bound.1)) {
        (Some(low), Some(high)) => high < low,
        _ => false,
    }
}

fn bound_lacks(
    facts: &Facts,
    commons: &Table<Place>,
    defined: &Defined,
    dummy: bool,
    last: bool,
    bound: &(Option<Expr>, Option<Expr>),
) -> bool
    ensures { result ≡ n.bound_lacks facts.now commons.now defined.now dummy last bound.now }
{
    let below = lower_lacks(facts, commons, defined, dummy, &bound.0);
    let above = upper_lacks(facts, commons, defined, dummy, last, &bound.1);
    below | (above | is_reversed(&defined.values, bound))
}

/// Whether a bound isn't one that an array may have.
#[tactic(auto, using(crate::proofs::Layers::layers))]
fn bounds_lack(
    facts: &Facts,
    commons: &Table<Place>,
    defined: &Defined,
    dummy: bool,
    bounds: &Bounds,
) -> bool
    ensures { result ≡ n.bounds_lack facts.now commons.now defined.now dummy bounds.now }
{
    for (k, bound) in bounds.as_slice().iter().enumerate() {
        let last = k + 1 == bounds.len();
        if bound_lacks(facts, commons, defined, dummy, last, bound) {
            return true;
        }
    }
    false
}

fn declarator_lacks(
    facts: &Facts,
    commons: &Table<Place>,
    defined: &Defined,
    declarator: &Declarator,
) -> bool
    ensures { result ≡ n.declarator_lacks facts.now commons.now defined.now declarator.now }
{
    let dummy = facts.attributes.dummies.contains(&declarator.name);
    bounds_lack(facts, commons, defined, dummy, &declarator.bounds)
}

fn declarators_lack(
    facts: &Facts,
    commons: &Table<Place>,
    defined: &Defined,
    all: &List<Declarator>,
) -> bool
    ensures { result ≡ list_any (n.declarator_lacks facts.now commons.now defined.now) all.now }
{
    all.as_slice()
        .iter()
        .any(|d| declarator_lacks(facts, commons, defined, d))
}

fn blocks_lack(
    facts: &Facts,
    commons: &Table<Place>,
    defined: &Defined,
    blocks: &List<(Name, List<Declarator>)>,
) -> bool
    ensures { result ≡ list_any (n.block_lacks facts.now commons.now defined.now) blocks.now }
{
    blocks.as_slice().iter().any(|block| declarators_lack(facts, commons, defined, &block.1))
}

fn subscripts_lack(defined: &Defined, list: &List<Expr>) -> bool
    ensures { result ≡ list_any (n.is_no_constant defined.now) list.now }
{
    list.as_slice().iter().any(|e| is_no_constant(defined, e))
}

#[tactic(auto, using(crate::proofs::Layers::views))]
fn item_lacks(defined: &Defined, item: &Expr) -> bool
    ensures { result ≡ n.item_lacks defined.now (out-Expr item.now) }
{
    match item {
        Expr::Apply(_, list) => subscripts_lack(defined, list),
        _ => false,
    }
}

fn run_lacks(defined: &Defined, run: &(List<Expr>, List<DataConst>)) -> bool
    ensures { result ≡ n.run_lacks defined.now run.now }
{
    run.0.as_slice().iter().any(|e| item_lacks(defined, e))
}

fn step(alloc: Global, defined: &mut Defined, definition: &(Name, Expr)) -> Result<bool, AllocError>
    ensures lacks { IfOk result (λ lacks. lacks ≡ n.is_no_constant defined.old definition.now.1) }
    ensures defined { OnOk result (defined.new ≡ m.with_definition defined.old definition.now) }
{
    let lacks = is_no_constant(defined, &definition.1);
    define(alloc, defined, definition)?;
    Ok(lacks)
}

#[tactic(auto, using(crate::proofs::Layers::tests))]
fn values_lack(
    alloc: Global,
    defined: &mut Defined,
    all: &List<(Name, Expr)>,
) -> Result<bool, AllocError>
    ensures lacks { IfOk result (λ lacks. lacks ≡ n.lacks_values defined.old all.now) }
    ensures defined { OnOk result (defined.new ≡ m.with_definitions defined.old all.now) }
{
    let mut found = false;
    for definition in all.as_slice() {
        let lacks = step(alloc, defined, definition)?;
        found = found | lacks;
    }
    Ok(found)
}

fn runs_lack(defined: &Defined, runs: &List<(List<Expr>, List<DataConst>)>) -> bool
    ensures { result ≡ list_any (n.run_lacks defined.now) runs.now }
{
    runs.as_slice().iter().any(|run| run_lacks(defined, run))
}

/// Whether a statement needs a constant expression and has none. Its own definitions are added to those before it.
pub fn statement_lacks(
    alloc: Global,
    facts: &Facts,
    commons: &Table<Place>,
    defined: &mut Defined,
    statement: &Stmt,
) -> Result<bool, AllocError>
    ensures lacks { IfOk result (λ lacks. lacks ≡ n.statement_lacks facts.now commons.now defined.old statement.now) }
    ensures defined { OnOk result (defined.new ≡ m.with_statement defined.old statement.now) }
{
    match &statement.form {
        Form::Parameter(all) => values_lack(alloc, defined, all),
        Form::Typed(_, all) => Ok(declarators_lack(facts, commons, defined, all)),
        Form::Dimension(all) => Ok(declarators_lack(facts, commons, defined, all)),
        Form::Common(blocks) => Ok(blocks_lack(facts, commons, defined, blocks)),
        Form::DataRuns(runs) => Ok(runs_lack(defined, runs)),
        _ => Ok(false),
    }
}

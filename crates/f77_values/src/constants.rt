//! Constant expressions and named constants.
ghost use Rattle.std.specs.Prelude.{◌≡◌, fold, IfOk, OnOk};
ghost use Rattle.f77_values.specs.Arithmetic as m;
ghost use Rattle.f77_values.specs.Constants as c;

use super::arithmetic::{deny, keep, negate, operate};
use super::tables::Table;
use f77_tree::{Expr, Form, List, Name, Op, Stmt, Value};
use std::alloc::{AllocError, Global};

/// The value with its sign changed, where it is an integer.
pub fn negated(value: Option<Value>) -> Option<Value>
    ensures { result ≡ c.applied m.negated value }
{
    match value {
        Some(value) => negate(value),
        None => None,
    }
}

/// The value, where it is an integer.
pub fn kept(value: Option<Value>) -> Option<Value>
    ensures { result ≡ c.applied m.kept value }
{
    match value {
        Some(value) => keep(value),
        None => None,
    }
}

/// The other truth value, where it is one.
pub fn denied(value: Option<Value>) -> Option<Value>
    ensures { result ≡ c.applied m.denied value }
{
    match value {
        Some(value) => deny(value),
        None => None,
    }
}

/// The value of an operator between two values, where both are known and it has one.
pub fn operated(op: Op, left: Option<Value>, right: Option<Value>) -> Option<Value>
    ensures { result ≡ c.operated op left right }
{
    match (left, right) {
        (Some(x), Some(y)) => operate(op, x, y),
        _ => None,
    }
}

/// The value of an expression under these named constants, if it is a constant expression and has one.
#[tactic(auto, using(crate::proofs::Values::values))]
pub fn evaluate(constants: &Table<Value>, e: &Expr) -> Option<Value>
    ensures { result ≡ c.value_of constants.now e.now }
{
    match e {
        Expr::Int(n) => Some(Value::Integer(*n)),
        Expr::Truth(b) => Some(Value::Logical(*b)),
        Expr::Scalar(name) => constants.get(name).copied(),
        Expr::Paren(inner) => evaluate(constants, inner.get()),
        Expr::Neg(inner) => negated(evaluate(constants, inner.get())),
        Expr::Plus(inner) => kept(evaluate(constants, inner.get())),
        Expr::Not(inner) => denied(evaluate(constants, inner.get())),
        Expr::Binary(op, a, b) => operated(
            *op,
            evaluate(constants, a.get()),
            evaluate(constants, b.get()),
        ),
        Expr::Text(_) | Expr::Apply(_, _) => None,
    }
}

fn define(
    alloc: Global,
    constants: &mut Table<Value>,
    definition: &(Name, Expr),
) -> Result<(), AllocError>
    ensures { OnOk result (constants.new ≡ c.with_constant constants.old definition.now) }
{
    match evaluate(constants, &definition.1) {
        Some(value) => constants.insert(definition.0.copy(alloc)?, value),
        None => Ok(()),
    }
}

fn define_all(
    alloc: Global,
    constants: &mut Table<Value>,
    all: &List<(Name, Expr)>,
) -> Result<(), AllocError>
    ensures { OnOk result (constants.new ≡ fold c.with_constant constants.old all.now) }
{
    for definition in all.as_slice() {
        define(alloc, constants, definition)?;
    }
    Ok(())
}

/// Adds the named constants of a statement to those that are known before it.
pub fn define_in(
    alloc: Global,
    constants: &mut Table<Value>,
    statement: &Stmt,
) -> Result<(), AllocError>
    ensures { OnOk result (constants.new ≡ c.with_statement constants.old statement.now) }
{
    match &statement.form {
        Form::Parameter(all) => define_all(alloc, constants, all),
        _ => Ok(()),
    }
}

/// The named constants of a unit.
pub fn constants_of(alloc: Global, statements: &List<Stmt>) -> Result<Table<Value>, AllocError>
    ensures { IfOk result (λ all. all ≡ c.constants statements.now) }
{
    let mut constants = Table::new(alloc);
    for statement in statements.as_slice() {
        define_in(alloc, &mut constants, statement)?;
    }
    Ok(constants)
}

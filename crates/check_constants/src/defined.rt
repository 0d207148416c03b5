//! The named constants that the text before a place defines.
ghost use Rattle.std.specs.Prelude.{◌≡◌, fold, OnOk};
ghost use Rattle.f77_tree.specs.declared.form.Form.TheViews.{out-Form};
ghost use Rattle.f77_values.specs.Constants.{with_constant};
ghost use Rattle.check_constants.specs.Defined as m;

use f77_tree::{Expr, Form, List, Name, Stmt, Value};
use f77_values::{Names, Table, evaluate};
use std::alloc::{AllocError, Global};

/// The named constants that are defined so far, and the values of those that have one.
#[derive(Drop)]
pub struct Defined {
    pub names: Names,
    pub values: Table<Value>,
}

impl Defined {
    /// None is defined.
    pub fn new(alloc: Global) -> Defined
        ensures { result ≡ m.nothing }
    {
        Defined {
            names: Names::new(alloc),
            values: Table::new(alloc),
        }
    }
}

fn define_value(
    alloc: Global,
    values: &mut Table<Value>,
    definition: &(Name, Expr),
) -> Result<(), AllocError>
    ensures { OnOk result (values.new ≡ with_constant values.old definition.now) }
{
    match evaluate(values, &definition.1) {
        Some(value) => values.insert(definition.0.copy(alloc)?, value),
        None => Ok(()),
    }
}

/// Adds a definition of PARAMETER to those before it.
pub fn define(
    alloc: Global,
    defined: &mut Defined,
    definition: &(Name, Expr),
) -> Result<(), AllocError>
    ensures { OnOk result (defined.new ≡ m.with_definition defined.old definition.now) }
{
    define_value(alloc, &mut defined.values, definition)?;
    defined.names.insert(definition.0.copy(alloc)?)
}

fn define_all(
    alloc: Global,
    defined: &mut Defined,
    all: &List<(Name, Expr)>,
) -> Result<(), AllocError>
    ensures { OnOk result (defined.new ≡ fold m.with_definition defined.old all.now) }
{
    for definition in all.as_slice() {
        define(alloc, defined, definition)?;
    }
    Ok(())
}

/// Adds the definitions of a statement to those before it.
pub fn define_in(alloc: Global, defined: &mut Defined, statement: &Stmt) -> Result<(), AllocError>
    ensures { OnOk result (defined.new ≡ m.with_statement defined.old statement.now) }
{
    match &statement.form {
        Form::Parameter(all) => define_all(alloc, defined, all),
        _ => Ok(()),
    }
}

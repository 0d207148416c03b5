//! Where exponents are wrong in a unit.
ghost use Rattle.std.specs.Prelude.{◌≡◌, [], fold, IfOk, OnOk};
ghost use Rattle.f77_values.specs.Constants as c;
ghost use Rattle.check_types.specs.Overreaching as o;

use super::breaks::{Rule, form_breaks};
use super::exponents::has_wrong_exponent;
use f77_names::Facts;
use f77_tree::{Expr, Form, List, Name, Stmt, Value};
use f77_values::{Table, evaluate};
use std::alloc::{AllocError, Global};

fn define(
    alloc: Global,
    constants: &mut Table<Value>,
    definition: &(Name, Expr),
) -> Result<(), AllocError>
    ensures { OnOk result (constants.new ≡ c.with_constant constants.old definition.now) }
{
    match evaluate(constants, &definition.1) {
        Some(value) => constants.insert(definition.0.copy(alloc)?, value),
        None => Ok(()),
    }
}

fn definitions_overreach(
    alloc: Global,
    constants: &mut Table<Value>,
    all: &List<(Name, Expr)>,
) -> Result<bool, AllocError>
    ensures told { IfOk result (λ b. b ≡ o.definitions_overreach constants.old all.now) }
    ensures known { OnOk result (constants.new ≡ fold c.with_constant constants.old all.now) }
{
    let mut found = false;
    for definition in all.as_slice() {
        found = found | has_wrong_exponent(constants, &definition.1);
        define(alloc, constants, definition)?;
    }
    Ok(found)
}

fn overreaches(
    alloc: Global,
    facts: &Facts,
    constants: &mut Table<Value>,
    statement: &Stmt,
) -> Result<bool, AllocError>
    ensures told { IfOk result (λ b. b ≡ o.overreaches facts.now constants.old statement.now) }
    ensures known { OnOk result (constants.new ≡ c.with_statement constants.old statement.now) }
{
    match &statement.form {
        Form::Parameter(all) => definitions_overreach(alloc, constants, all),
        _ => Ok(form_breaks(facts, constants, Rule::Exponents, &statement.form)),
    }
}

/// For each statement whether it has a wrong exponent, under the named constants of the statements before it.
#[tactic(auto, using(crate::proofs::Joining::joining))]
pub fn exponent_flags(
    alloc: Global,
    facts: &Facts,
    statements: &List<Stmt>,
) -> Result<Vec<bool>, AllocError>
    ensures { IfOk result (λ flags. flags.items ≡ o.overreaches_from facts.now [] statements.now) }
{
    let mut constants = Table::new(alloc);
    let mut flags = Vec::new(alloc);
    for statement in statements.as_slice() {
        flags.push(overreaches(alloc, facts, &mut constants, statement)?)?;
    }
    Ok(flags)
}

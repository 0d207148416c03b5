//! The bounds of arrays, as far as they are constant.
ghost use Rattle.std.specs.Prelude.{◌≡◌, [], fold, map, IfOk, OnOk, is_some};
ghost use Rattle.f77_tree.specs.declared.form.Form.TheViews.{out-Form};
ghost use Rattle.f77_values.specs.Tables.{what};
ghost use Rattle.check_data.specs.Measures as m;

use check_constants::{Defined, define_in};
use f77_tree::{Declarator, Expr, Form, List, Name, Stmt, Value};
use f77_values::{Bounds, Table, lower, upper};
use std::alloc::{AllocError, Global};

/// An array's lower and upper bounds, as far as they are constant.
#[derive(Drop)]
pub struct Measured {
    pub sides: List<(Option<i64>, Option<i64>)>,
}

fn side(
    constants: &Table<Value>,
    bound: &(Option<Expr>, Option<Expr>),
) -> (Option<i64>, Option<i64>)
    ensures { result ≡ m.side constants.now bound.now }
{
    (lower(constants, &bound.0), upper(constants, &bound.1))
}

#[tactic(auto, using(crate::proofs::Layers::lists))]
fn sides(
    alloc: Global,
    constants: &Table<Value>,
    bounds: &Bounds,
) -> Result<List<(Option<i64>, Option<i64>)>, AllocError>
    ensures { IfOk result (λ all. all ≡ map (m.side constants.now) bounds.now) }
{
    let mut all = List::new(alloc);
    for bound in bounds.as_slice() {
        all.push(side(constants, bound))?;
    }
    Ok(all)
}

fn measure(alloc: Global, constants: &Table<Value>, bounds: &Bounds) -> Result<Measured, AllocError>
    ensures { IfOk result (λ array. array ≡ m.measured constants.now bounds.now) }
{
    Ok(Measured {
        sides: sides(alloc, constants, bounds)?,
    })
}

fn is_known(known: &Table<Measured>, name: &Name) -> bool
    ensures { result ≡ is_some (what known.now name.now) }
{
    known.get(name).is_some()
}

fn add_array(
    alloc: Global,
    constants: &Table<Value>,
    known: &mut Table<Measured>,
    d: &Declarator,
) -> Result<(), AllocError>
    ensures { OnOk result (known.new ≡ m.with_array constants.now known.old d.now) }
{
    if d.bounds.len() == 0 {
        return Ok(());
    }
    if is_known(known, &d.name) {
        return Ok(());
    }
    let array = measure(alloc, constants, &d.bounds)?;
    known.insert(d.name.copy(alloc)?, array)
}

fn add_arrays(
    alloc: Global,
    constants: &Table<Value>,
    known: &mut Table<Measured>,
    all: &List<Declarator>,
) -> Result<(), AllocError>
    ensures { OnOk result (known.new ≡ m.with_arrays constants.now known.old all.now) }
{
    for d in all.as_slice() {
        add_array(alloc, constants, known, d)?;
    }
    Ok(())
}

fn add_blocks(
    alloc: Global,
    constants: &Table<Value>,
    known: &mut Table<Measured>,
    blocks: &List<(Name, List<Declarator>)>,
) -> Result<(), AllocError>
    ensures { OnOk result (known.new ≡ fold (m.with_block constants.now) known.old blocks.now) }
{
    for block in blocks.as_slice() {
        add_arrays(alloc, constants, known, &block.1)?;
    }
    Ok(())
}

fn add_form(
    alloc: Global,
    constants: &Table<Value>,
    known: &mut Table<Measured>,
    form: &Form,
) -> Result<(), AllocError>
    ensures { OnOk result (known.new ≡ m.form_measures constants.now known.old (out-Form form.now)) }
{
    match form {
        Form::Typed(_, all) => add_arrays(alloc, constants, known, all),
        Form::Dimension(all) => add_arrays(alloc, constants, known, all),
        Form::Common(blocks) => add_blocks(alloc, constants, known, blocks),
        _ => Ok(()),
    }
}

/// The bounds of a unit's arrays, as far as they are constant where they stand.
pub fn measures_of(alloc: Global, statements: &List<Stmt>) -> Result<Table<Measured>, AllocError>
    ensures { IfOk result (λ all. all ≡ m.measures statements.now) }
{
    let mut defined = Defined::new(alloc);
    let mut known = Table::new(alloc);
    for statement in statements.as_slice() {
        add_form(alloc, &defined.values, &mut known, &statement.form)?;
        define_in(alloc, &mut defined, statement)?;
    }
    Ok(known)
}

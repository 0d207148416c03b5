//! Arrays with too many storage units.
ghost use Rattle.std.specs.Prelude.{◌≡◌, map, length, IfOk};
ghost use Rattle.std.specs.List.{list_any, range_with_len};
ghost use Rattle.std.specs.Option.{option_map};
ghost use Rattle.f77_tree.specs.declared.form.Form.TheViews.{out-Form};
ghost use Rattle.f77_values.specs.Tables.{saturated};
ghost use Rattle.check_names.specs.LargeArrays as l;

use f77_names::Attributes;
use f77_tree::{Declarator, Form, List, Name, Unit, Value};
use f77_values::{Table, define_in, elements};
use std::alloc::{AllocError, Global};

/// The greatest number of storage units of one array.
pub const MOST_UNITS: u32 = 16_777_216;

fn exceeds(size: Option<u32>) -> bool
    ensures { result ≡ l.exceeds size }
{
    match size {
        Some(size) => MOST_UNITS < size,
        None => false,
    }
}

fn is_large(a: &Attributes, constants: &Table<Value>, d: &Declarator) -> bool
    ensures { result ≡ l.is_large a.now constants.now d.now }
{
    exceeds(elements(constants, &d.bounds)) & !a.dummies.contains(&d.name)
}

fn any_large(a: &Attributes, constants: &Table<Value>, all: &List<Declarator>) -> bool
    ensures { result ≡ list_any (l.is_large a.now constants.now) all.now }
{
    all.as_slice().iter().any(|d| is_large(a, constants, d))
}

fn has_large_in(a: &Attributes, constants: &Table<Value>, block: &(Name, List<Declarator>)) -> bool
    ensures { result ≡ l.has_large_in a.now constants.now block.now }
{
    any_large(a, constants, &block.1)
}

fn any_large_in(
    a: &Attributes,
    constants: &Table<Value>,
    blocks: &List<(Name, List<Declarator>)>,
) -> bool
    ensures { result ≡ list_any (l.has_large_in a.now constants.now) blocks.now }
{
    blocks
        .as_slice()
        .iter()
        .any(|block| has_large_in(a, constants, block))
}

fn has_large(a: &Attributes, constants: &Table<Value>, form: &Form) -> bool
    ensures { result ≡ l.has_large a.now constants.now (out-Form form.now) }
{
    match form {
        Form::Typed(_, all) | Form::Dimension(all) => any_large(a, constants, all),
        Form::Common(blocks) => any_large_in(a, constants, blocks),
        _ => false,
    }
}

/// For each statement whether it declares an array with too many storage units.
pub fn large_flags(alloc: Global, a: &Attributes, unit: &Unit) -> Result<List<bool>, AllocError>
    ensures { IfOk result (λ flags. flags ≡ map (l.large_at a.now unit.now) (range_with_len 0 (length unit.now.statements))) }
{
    let mut constants = Table::new(alloc);
    let mut flags = List::new(alloc);
    for statement in unit.statements.as_slice() {
        flags.push(has_large(a, &constants, &statement.form))?;
        define_in(alloc, &mut constants, statement)?;
    }
    Ok(flags)
}

//! What the declarators of a unit tell of their names.
ghost use Rattle.std.specs.Prelude.{◌≡◌, ◌++◌, None, Some, map, flat_map, fold, IfOk, OnOk};
ghost use Rattle.f77_tree.specs.declared.form.Form.TheViews.{out-Form};
ghost use Rattle.f77_values.specs.Tables as n;
ghost use Rattle.f77_names.specs.Declarations as m;

use f77_tree::{Declarator, Duplicate, Form, List, Name, Stmt, Ty, TypeWord, Value};
use f77_values::{Bounds, Table, define_in, elements};
use std::alloc::{AllocError, Global};

/// A declarator with the type that its statement gives and the COMMON block that it stands in. `size` is the number of elements, at
/// most 4,294,967,295, where all bounds are constant.
#[derive(Drop)]
pub struct Declaration {
    pub name: Name,
    pub word: Option<TypeWord>,
    pub block: Option<Name>,
    pub bounds: Bounds,
    pub size: Option<u32>,
}

/// The bounds of an array, and its number of elements, at most 4,294,967,295, where they are constant.
#[derive(Drop)]
pub struct Shape {
    pub bounds: Bounds,
    pub size: Option<u32>,
}

fn word_of(ty: Ty) -> TypeWord
    ensures { result ≡ m.word_of ty }
{
    match ty {
        Ty::Integer => TypeWord::Integer,
        Ty::Logical => TypeWord::Logical,
    }
}

fn declare(
    alloc: Global,
    constants: &Table<Value>,
    word: Option<TypeWord>,
    block: Option<Name>,
    d: &Declarator,
) -> Result<Declaration, AllocError>
    ensures { IfOk result (λ x. x ≡ m.declared constants.now word block d.now) }
{
    Ok(Declaration {
        name: d.name.copy(alloc)?,
        word,
        block,
        bounds: d.bounds.duplicate(alloc)?,
        size: elements(constants, &d.bounds),
    })
}

#[tactic(auto, using(crate::proofs::Joined::joined))]
fn push_all(
    alloc: Global,
    constants: &Table<Value>,
    found: &mut List<Declaration>,
    word: Option<TypeWord>,
    all: &List<Declarator>,
) -> Result<(), AllocError>
    ensures { OnOk result (found.new ≡ found.old ++ map (m.declared constants.now word None) all.now) }
{
    for declarator in all.as_slice() {
        found.push(declare(alloc, constants, word, None, declarator)?)?;
    }
    Ok(())
}

#[tactic(auto, using(crate::proofs::Joined::joined))]
fn push_block(
    alloc: Global,
    constants: &Table<Value>,
    found: &mut List<Declaration>,
    block: &(Name, List<Declarator>),
) -> Result<(), AllocError>
    ensures { OnOk result (found.new ≡ found.old ++ m.in_block constants.now block.now) }
{
    for declarator in block.1.as_slice() {
        let name = block.0.copy(alloc)?;
        found.push(declare(alloc, constants, None, Some(name), declarator)?)?;
    }
    Ok(())
}

#[tactic(auto, using(crate::proofs::Joined::joined))]
fn push_blocks(
    alloc: Global,
    constants: &Table<Value>,
    found: &mut List<Declaration>,
    blocks: &List<(Name, List<Declarator>)>,
) -> Result<(), AllocError>
    ensures { OnOk result (found.new ≡ found.old ++ flat_map (m.in_block constants.now) blocks.now) }
{
    for block in blocks.as_slice() {
        push_block(alloc, constants, found, block)?;
    }
    Ok(())
}

fn push_head(
    alloc: Global,
    found: &mut List<Declaration>,
    word: Option<TypeWord>,
    name: &Name,
) -> Result<(), AllocError>
    ensures { OnOk result (found.new ≡ found.old ++ m.of_head word name.now) }
{
    match word {
        Some(word) => found.push(Declaration {
            name: name.copy(alloc)?,
            word: Some(word),
            block: None,
            bounds: List::new(alloc),
            size: Some(1),
        }),
        None => Ok(()),
    }
}

fn push_form(
    alloc: Global,
    constants: &Table<Value>,
    found: &mut List<Declaration>,
    form: &Form,
) -> Result<(), AllocError>
    ensures { OnOk result (found.new ≡ found.old ++ m.in_form constants.now (out-Form form.now)) }
{
    match form {
        Form::Head(_, word, name, _) => push_head(alloc, found, *word, name),
        Form::Typed(ty, all) => push_all(alloc, constants, found, Some(word_of(*ty)), all),
        Form::Dimension(all) => push_all(alloc, constants, found, None, all),
        Form::Common(blocks) => push_blocks(alloc, constants, found, blocks),
        _ => Ok(()),
    }
}

/// The declarators of a unit in the order of its text.
#[tactic(auto, using(crate::proofs::Joined::joined))]
pub fn declarations_of(
    alloc: Global,
    statements: &List<Stmt>,
) -> Result<List<Declaration>, AllocError>
    ensures { IfOk result (λ all. all ≡ m.declarations statements.now) }
{
    let mut constants = Table::new(alloc);
    let mut found = List::new(alloc);
    for statement in statements.as_slice() {
        push_form(alloc, &constants, &mut found, &statement.form)?;
        define_in(alloc, &mut constants, statement)?;
    }
    Ok(found)
}

fn put_first(
    alloc: Global,
    words: &mut Table<TypeWord>,
    name: &Name,
    word: TypeWord,
) -> Result<(), AllocError>
    ensures { OnOk result (words.new ≡ n.with_first words.old (name.now, word)) }
{
    if words.get(name).is_some() {
        return Ok(());
    }
    words.insert(name.copy(alloc)?, word)
}

fn tell_word(alloc: Global, words: &mut Table<TypeWord>, d: &Declaration) -> Result<(), AllocError>
    ensures { OnOk result (words.new ≡ fold n.with_first words.old (m.word_told d.now)) }
{
    match d.word {
        Some(word) => put_first(alloc, words, &d.name, word),
        None => Ok(()),
    }
}

/// The types that statements tell, of each name the first.
pub fn words_of(
    alloc: Global,
    declarations: &List<Declaration>,
) -> Result<Table<TypeWord>, AllocError>
    ensures { IfOk result (λ words. words ≡ m.words declarations.now) }
{
    let mut words = Table::new(alloc);
    for declaration in declarations.as_slice() {
        tell_word(alloc, &mut words, declaration)?;
    }
    Ok(words)
}

fn tell_shape(alloc: Global, shapes: &mut Table<Shape>, d: &Declaration) -> Result<(), AllocError>
    ensures { OnOk result (shapes.new ≡ fold n.with_first shapes.old (m.shape_told d.now)) }
{
    if d.bounds.len() == 0 {
        return Ok(());
    }
    if shapes.get(&d.name).is_some() {
        return Ok(());
    }
    let name = d.name.copy(alloc)?;
    let bounds = d.bounds.duplicate(alloc)?;
    shapes.insert(
        name,
        Shape {
            bounds,
            size: d.size,
        },
    )
}

/// The shapes of a unit's arrays, of each the one that is told first.
pub fn shapes_of(
    alloc: Global,
    declarations: &List<Declaration>,
) -> Result<Table<Shape>, AllocError>
    ensures { IfOk result (λ shapes. shapes ≡ m.shapes declarations.now) }
{
    let mut shapes = Table::new(alloc);
    for declaration in declarations.as_slice() {
        tell_shape(alloc, &mut shapes, declaration)?;
    }
    Ok(shapes)
}

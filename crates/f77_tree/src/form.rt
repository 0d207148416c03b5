//! The forms of statements.
ghost use Rattle.std.specs.Prelude.{◌≡◌, IfOk};
ghost use Rattle.f77_tree.specs.declared.form.Form.TheVariants as v;

use super::copies::Duplicate;
use super::expr::Expr;
use super::name::Name;
use super::unit::{Ty, UnitKind};
use sqlite_items::{Boxed as Box, Items as List};
use std::alloc::{AllocError, Global};

/// The words of types.
#[derive(Clone, Copy, Debug, Drop, PartialEq, Eq)]
pub enum TypeWord {
    Integer,
    Logical,
    Real,
    DoublePrecision,
    Complex,
}

/// A name with its lower and upper bounds, of which there are none where it is no array. `*` is an upper bound that isn't
/// there.
pub struct Declarator {
    pub name: Name,
    pub bounds: List<(Option<Expr>, Option<Expr>)>,
}

impl Drop for Declarator {
    fn drop(self) {
        let Declarator { name, bounds } = self;
        drop(name);
        drop(bounds)
    }
}

/// A constant of DATA with its repeat. A signed integer is an `Int` with its sign.
pub struct DataConst {
    pub repeat: Option<Expr>,
    pub value: Expr,
}

impl Drop for DataConst {
    fn drop(self) {
        let DataConst { repeat, value } = self;
        drop(repeat);
        drop(value)
    }
}

/// What a statement is. `Implicit` has ranges of capital letters, `Common` its blocks, `Save` names and then blocks.
pub enum Form {
    Head(UnitKind, Option<TypeWord>, Name, List<Name>),
    Implicit(List<(TypeWord, List<(u8, u8)>)>),
    ImplicitNone,
    Typed(Ty, List<Declarator>),
    Dimension(List<Declarator>),
    Common(List<(Name, List<Declarator>)>),
    Parameter(List<(Name, Expr)>),
    External(List<Name>),
    Intrinsic(List<Name>),
    Save(List<Name>, List<Name>),
    DataRuns(List<(List<Expr>, List<DataConst>)>),
    Assign(Expr, Expr),
    BlockIf(Expr),
    ElseIf(Expr),
    Else,
    EndIf,
    LogicalIf(Expr, Box<Form>),
    ArithmeticIf(Expr, u32, u32, u32),
    GoTo(u32),
    ComputedGoTo(List<u32>, Expr),
    Do(u32, Name, Expr, Expr, Option<Expr>),
    Continue,
    Return,
    End,
    Stop,
    Call(Name, List<Expr>),
    Print(List<Expr>),
    Read(List<Expr>),
}

// Who drops a form makes one call, and doesn't open its variants; each part is dropped by a call for the same reason.
impl Drop for Form {
    fn drop(self) {
        match self {
            Form::LogicalIf(test, inner) => {
                drop(test);
                drop(inner)
            }
            Form::Head(_, _, name, dummies) => {
                drop(name);
                drop(dummies)
            }
            Form::Implicit(rules) => drop(rules),
            Form::Typed(_, all) | Form::Dimension(all) => drop(all),
            Form::Common(blocks) => drop(blocks),
            Form::Parameter(all) => drop(all),
            Form::External(names) | Form::Intrinsic(names) => drop(names),
            Form::Save(names, blocks) => {
                drop(names);
                drop(blocks)
            }
            Form::DataRuns(runs) => drop(runs),
            Form::Assign(target, value) => {
                drop(target);
                drop(value)
            }
            Form::BlockIf(test) | Form::ElseIf(test) => drop(test),
            Form::ArithmeticIf(value, _, _, _) => drop(value),
            Form::ComputedGoTo(labels, index) => {
                drop(labels);
                drop(index)
            }
            Form::Do(_, name, from, to, step) => {
                drop(name);
                drop(from);
                drop(to);
                drop(step)
            }
            Form::Call(name, actuals) => {
                drop(name);
                drop(actuals)
            }
            Form::Print(list) | Form::Read(list) => drop(list),
            Form::ImplicitNone | Form::Else | Form::EndIf | Form::GoTo(_) => (),
            Form::Continue | Form::Return | Form::End | Form::Stop => (),
        }
    }
}

impl Duplicate for TypeWord {
    fn duplicate(&self, _alloc: Global) -> Result<TypeWord, AllocError> {
        Ok(*self)
    }
}

impl Duplicate for Declarator {
    fn duplicate(&self, alloc: Global) -> Result<Declarator, AllocError> {
        Ok(Declarator {
            name: self.name.copy(alloc)?,
            bounds: self.bounds.duplicate(alloc)?,
        })
    }
}

impl Duplicate for DataConst {
    fn duplicate(&self, alloc: Global) -> Result<DataConst, AllocError> {
        Ok(DataConst {
            repeat: self.repeat.duplicate(alloc)?,
            value: self.value.copy(alloc)?,
        })
    }
}

/// A logical IF with a copy of its test.
fn conditional(alloc: Global, test: &Expr, inner: Form) -> Result<Form, AllocError>
    ensures { IfOk result (λ form. form ≡ v.LogicalIf test.now inner) }
{
    let inner = Box::new(alloc, inner)?;
    Ok(Form::LogicalIf(test.copy(alloc)?, inner))
}

fn copy_head(
    alloc: Global,
    kind: UnitKind,
    word: Option<TypeWord>,
    name: &Name,
    dummies: &List<Name>,
) -> Result<Form, AllocError>
    ensures { IfOk result (λ form. form ≡ v.Head kind word name.now dummies.now) }
{
    Ok(Form::Head(kind, word, name.copy(alloc)?, dummies.duplicate(alloc)?))
}

fn copy_save(alloc: Global, names: &List<Name>, blocks: &List<Name>) -> Result<Form, AllocError>
    ensures { IfOk result (λ form. form ≡ v.Save names.now blocks.now) }
{
    Ok(Form::Save(names.duplicate(alloc)?, blocks.duplicate(alloc)?))
}

fn copy_assignment(alloc: Global, target: &Expr, value: &Expr) -> Result<Form, AllocError>
    ensures { IfOk result (λ form. form ≡ v.Assign target.now value.now) }
{
    Ok(Form::Assign(target.copy(alloc)?, value.copy(alloc)?))
}

fn copy_computed(alloc: Global, labels: &List<u32>, index: &Expr) -> Result<Form, AllocError>
    ensures { IfOk result (λ form. form ≡ v.ComputedGoTo labels.now index.now) }
{
    Ok(Form::ComputedGoTo(labels.duplicate(alloc)?, index.copy(alloc)?))
}

fn copy_do(
    alloc: Global,
    label: u32,
    name: &Name,
    from: &Expr,
    to: &Expr,
    step: &Option<Expr>,
) -> Result<Form, AllocError>
    ensures { IfOk result (λ form. form ≡ v.Do label name.now from.now to.now step.now) }
{
    Ok(Form::Do(
        label,
        name.copy(alloc)?,
        from.copy(alloc)?,
        to.copy(alloc)?,
        step.duplicate(alloc)?,
    ))
}

fn copy_call(alloc: Global, name: &Name, actuals: &List<Expr>) -> Result<Form, AllocError>
    ensures { IfOk result (λ form. form ≡ v.Call name.now actuals.now) }
{
    Ok(Form::Call(name.copy(alloc)?, actuals.duplicate(alloc)?))
}

impl Form {
    /// The same form again.
    pub fn copy(&self, alloc: Global) -> Result<Form, AllocError>
        ensures { IfOk result (λ again. again ≡ self.now) }
    {
        match self {
            Form::LogicalIf(test, inner) => conditional(alloc, test, inner.get().copy(alloc)?),
            Form::Head(kind, word, name, dummies) => copy_head(alloc, *kind, *word, name, dummies),
            Form::Implicit(rules) => Ok(Form::Implicit(rules.duplicate(alloc)?)),
            Form::ImplicitNone => Ok(Form::ImplicitNone),
            Form::Typed(ty, all) => Ok(Form::Typed(*ty, all.duplicate(alloc)?)),
            Form::Dimension(all) => Ok(Form::Dimension(all.duplicate(alloc)?)),
            Form::Common(blocks) => Ok(Form::Common(blocks.duplicate(alloc)?)),
            Form::Parameter(all) => Ok(Form::Parameter(all.duplicate(alloc)?)),
            Form::External(names) => Ok(Form::External(names.duplicate(alloc)?)),
            Form::Intrinsic(names) => Ok(Form::Intrinsic(names.duplicate(alloc)?)),
            Form::Save(names, blocks) => copy_save(alloc, names, blocks),
            Form::DataRuns(runs) => Ok(Form::DataRuns(runs.duplicate(alloc)?)),
            Form::Assign(target, value) => copy_assignment(alloc, target, value),
            Form::BlockIf(test) => Ok(Form::BlockIf(test.copy(alloc)?)),
            Form::ElseIf(test) => Ok(Form::ElseIf(test.copy(alloc)?)),
            Form::Else => Ok(Form::Else),
            Form::EndIf => Ok(Form::EndIf),
            Form::ArithmeticIf(value, a, b, c) => {
                Ok(Form::ArithmeticIf(value.copy(alloc)?, *a, *b, *c))
            }
            Form::GoTo(label) => Ok(Form::GoTo(*label)),
            Form::ComputedGoTo(labels, index) => copy_computed(alloc, labels, index),
            Form::Do(label, name, from, to, step) => copy_do(alloc, *label, name, from, to, step),
            Form::Continue => Ok(Form::Continue),
            Form::Return => Ok(Form::Return),
            Form::End => Ok(Form::End),
            Form::Stop => Ok(Form::Stop),
            Form::Call(name, actuals) => copy_call(alloc, name, actuals),
            Form::Print(items) => Ok(Form::Print(items.duplicate(alloc)?)),
            Form::Read(targets) => Ok(Form::Read(targets.duplicate(alloc)?)),
        }
    }
}

//! Units, their statements, and items of storage.
ghost use Rattle.std.specs.Prelude.{◌≡◌, IfOk};

use super::copies::Duplicate;
use super::form::Form;
use super::name::Name;
use sqlite_items::Items as List;
use std::alloc::{AllocError, Global};

/// The types that programs compute with.
#[derive(Clone, Copy, Debug, Drop, PartialEq, Eq)]
pub enum Ty {
    Integer,
    Logical,
}

#[derive(Clone, Copy, Debug, Drop, PartialEq, Eq)]
pub enum Value {
    Integer(i64),
    Logical(bool),
}

/// A dummy by its position, a unit of the local area, or a unit of a COMMON block, each counted from 0.
#[derive(Drop)]
pub enum Item {
    Dummy(u32),
    Local(u32),
    Common(Name, u32),
}

#[derive(Clone, Copy, Debug, Drop, PartialEq, Eq)]
pub enum UnitKind {
    Main,
    Subroutine,
    Function,
    BlockData,
}

/// A program unit. `tokens` is the number of tokens of its statement texts.
pub struct Unit {
    pub kind: UnitKind,
    pub name: Name,
    pub dummies: List<Name>,
    pub statements: List<Stmt>,
    pub tokens: u32,
}

impl Drop for Unit {
    fn drop(self) {
        let Unit {
            kind: _,
            name,
            dummies,
            statements,
            tokens: _,
        } = self;
        drop(name);
        drop(dummies);
        drop(statements)
    }
}

/// A statement with its label (0 for none) and its line in the unit.
pub struct Stmt {
    pub label: u32,
    pub line: u32,
    pub form: Form,
}

impl Drop for Stmt {
    fn drop(self) {
        let Stmt {
            label: _,
            line: _,
            form,
        } = self;
        drop(form)
    }
}

impl Item {
    /// The same item again.
    pub fn copy(&self, alloc: Global) -> Result<Item, AllocError>
        ensures { IfOk result (λ again. again ≡ self.now) }
    {
        match self {
            Item::Dummy(position) => Ok(Item::Dummy(*position)),
            Item::Local(at) => Ok(Item::Local(*at)),
            Item::Common(block, at) => Ok(Item::Common(block.copy(alloc)?, *at)),
        }
    }
}

impl Stmt {
    /// The same statement again.
    pub fn copy(&self, alloc: Global) -> Result<Stmt, AllocError>
        ensures { IfOk result (λ again. again ≡ self.now) }
    {
        Ok(Stmt {
            label: self.label,
            line: self.line,
            form: self.form.copy(alloc)?,
        })
    }
}

impl Unit {
    /// The same unit again.
    pub fn copy(&self, alloc: Global) -> Result<Unit, AllocError>
        ensures { IfOk result (λ again. again ≡ self.now) }
    {
        Ok(Unit {
            kind: self.kind,
            name: self.name.copy(alloc)?,
            dummies: self.dummies.duplicate(alloc)?,
            statements: self.statements.duplicate(alloc)?,
            tokens: self.tokens,
        })
    }
}

impl Duplicate for Item {
    fn duplicate(&self, alloc: Global) -> Result<Item, AllocError> {
        self.copy(alloc)
    }
}

impl Duplicate for Stmt {
    fn duplicate(&self, alloc: Global) -> Result<Stmt, AllocError> {
        self.copy(alloc)
    }
}

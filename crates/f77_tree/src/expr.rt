//! Expressions.
ghost use Rattle.std.specs.Prelude.{◌≡◌, IfOk};

use super::name::Name;
use sqlite_items::{Boxed as Box, Items as List};
use std::alloc::{AllocError, Global};

/// The operators between two operands.
#[derive(Clone, Copy, Debug, Drop, PartialEq, Eq)]
pub enum Op {
    Pow,
    Mul,
    Div,
    Add,
    Sub,
    Eq,
    Ne,
    Lt,
    Le,
    Gt,
    Ge,
    And,
    Or,
    Eqv,
    Neqv,
}

/// An expression, or an item of PRINT. A text has the bytes that are printed, each doubled apostrophe as one. A name
/// with a list is an array element, a function or an intrinsic.
#[derive(Drop)]
pub enum Expr {
    Int(i64),
    Truth(bool),
    Text(List<u8>),
    Scalar(Name),
    Apply(Name, List<Expr>),
    Paren(Box<Expr>),
    Neg(Box<Expr>),
    Plus(Box<Expr>),
    Not(Box<Expr>),
    Binary(Op, Box<Expr>, Box<Expr>),
}

impl Expr {
    /// The same expression again.
    #[cycle(copy)]
    pub fn copy(&self, alloc: Global) -> Result<Expr, AllocError>
        ensures { IfOk result (λ e. e ≡ self.now) }
    {
        match self {
            Expr::Int(n) => Ok(Expr::Int(*n)),
            Expr::Truth(b) => Ok(Expr::Truth(*b)),
            Expr::Text(bytes) => Ok(Expr::Text(List::from_slice(alloc, bytes.as_slice())?)),
            Expr::Scalar(name) => Ok(Expr::Scalar(name.copy(alloc)?)),
            Expr::Apply(name, list) => Ok(Expr::Apply(name.copy(alloc)?, copy_all(alloc, list)?)),
            Expr::Paren(inner) => Ok(Expr::Paren(copy_boxed(alloc, inner)?)),
            Expr::Neg(inner) => Ok(Expr::Neg(copy_boxed(alloc, inner)?)),
            Expr::Plus(inner) => Ok(Expr::Plus(copy_boxed(alloc, inner)?)),
            Expr::Not(inner) => Ok(Expr::Not(copy_boxed(alloc, inner)?)),
            Expr::Binary(op, a, b) => {
                Ok(Expr::Binary(*op, copy_boxed(alloc, a)?, copy_boxed(alloc, b)?))
            }
        }
    }
}

#[cycle(copy)]
fn copy_boxed(alloc: Global, e: &Box<Expr>) -> Result<Box<Expr>, AllocError>
    ensures { IfOk result (λ b. b ≡ e.now) }
{
    Box::new(alloc, e.get().copy(alloc)?)
}

#[cycle(copy)]
fn copy_all(alloc: Global, items: &List<Expr>) -> Result<List<Expr>, AllocError>
    ensures { IfOk result (λ all. all ≡ items.now) }
{
    let mut all = List::new(alloc);
    for item in items.as_slice() {
        all.push(item.copy(alloc)?)?;
    }
    Ok(all)
}

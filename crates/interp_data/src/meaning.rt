//! What a name of a unit stands for.
ghost use Rattle.std.specs.Prelude.{◌≡◌, IfOk};
ghost use Rattle.interp_data.specs.Meanings as m;

use super::standing::{copy_array, copy_base};
use f77_names::Intrinsic;
use f77_semantics::{Array, Base};
use f77_tree::{Ty, Value};
use std::alloc::{AllocError, Global};

/// A constant, a variable, an array, a function, an intrinsic function, or nothing that an expression can use.
#[derive(Drop)]
pub enum Meaning {
    Constant(Value),
    Variable(Ty, Base),
    Array(Ty, Array),
    Function,
    Intrinsic(Intrinsic),
    Unknown,
}

impl Meaning {
    /// The same meaning again.
    pub fn copy(&self, alloc: Global) -> Result<Meaning, AllocError>
        ensures { IfOk result (λ again. m.meant_of again ≡ m.meant_of self.now) }
    {
        match self {
            Meaning::Constant(value) => Ok(Meaning::Constant(*value)),
            Meaning::Variable(ty, base) => Ok(Meaning::Variable(*ty, copy_base(alloc, base)?)),
            Meaning::Array(ty, array) => Ok(Meaning::Array(*ty, copy_array(alloc, array)?)),
            Meaning::Function => Ok(Meaning::Function),
            Meaning::Intrinsic(intrinsic) => Ok(Meaning::Intrinsic(*intrinsic)),
            Meaning::Unknown => Ok(Meaning::Unknown),
        }
    }
}

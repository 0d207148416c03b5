//! Names, places, faults, and syntax trees as plain data.
#![tactic(auto)]

mod copies;
mod expr;
mod fault;
mod form;
mod name;
mod unit;
mod weights;

pub use copies::Duplicate;
pub use expr::{Expr, Op};
pub use fault::{Place, Refused, SourceFault};
pub use form::{DataConst, Declarator, Form, TypeWord};
pub use name::{Name, blank_name, is_name, name_of};
pub use sqlite_items::{Boxed as Box, Items as List};
pub use unit::{Item, Stmt, Ty, Unit, UnitKind, Value};
pub use weights::weight;

//! Compiled units as objects, and their JSON in a database.
//!
//! `specs/Grammar` says which JSON stands for which object, form by form, of a value as `serde_json` reads it:
//! `object_of` finds the object that a value stands for, and none exactly where it stands for none, and
//! `object_value` makes the JSON of each object that has any. JSON stands for one object at most (`one_object`), so
//! what was written is read back (`read_back`). `specs/Objects` has what holds of runs and relocations.
//!
//! The forms that other parts of a database share are public too: numbers, values, names, and arrays of any `Part`.
#![tactic(auto)]

mod code;
mod form;
mod leaves;
mod object;
mod part;
mod relocs;
mod runs;

pub use form::{object_of, object_value, one_object, read_back};
pub use leaves::{block_of, constant_of, constant_value, name_of, name_value, word_of, word_value};
pub use object::{InitialRun, Object, Reloc, Target};
pub use part::{Part, array_of, array_value};

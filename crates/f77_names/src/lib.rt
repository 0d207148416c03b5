//! What a name is in a unit: its occurrences, declarations and attributes, its type and its role.
//!
//! From the text of a unit to tables of its names, each with a definition of its own that the layers above cite:
//!
//! 1. `occurrences_of` lists the names of the unit in the order of the text, each with how it occurs
//!    (`specs/Occurrences`, one fold over expressions and forms). `declarations_of` lists what each declarator
//!    tells (`specs/Declarations`): type, COMMON block, bounds, and the number of elements under the named
//!    constants that are known there (`Constants` and `Sizes` of `f77_values`). Of types and bounds that are told
//!    twice the first counts.
//! 2. `attributes_of` sorts the names by what makes their roles, each set a list without repetitions. `role_of`,
//!    `is_function` and `is_intrinsic` decide by these sets, `names_of` for all names in order (`specs/Roles`,
//!    `specs/Types`, `specs/Intrinsics`); `standing_of` is the role without the bounds and the value.
//!
//! The definitions are total, so no call has a condition that a check would have to establish, and a check can
//! speak of a unit's names before it has passed any. A table is a list of pairs, each name once (`Told` of
//! `f77_values`). Contracts see a `Table` as that list, and an `IndexMap` finds in it.
#![tactic(auto)]

mod attributes;
mod declarations;
mod facts;
mod intrinsics;
mod occurrences;
mod roles;
mod standings;
mod types;

pub use attributes::{Attributes, attributes_of, is_function, is_intrinsic};
pub use declarations::{Declaration, Shape, declarations_of, shapes_of, words_of};
pub use facts::{Facts, facts_of};
pub use intrinsics::{Intrinsic, intrinsic_of};
pub use occurrences::{Manner, Occurrence, occurrences_of};
pub use roles::{Known, Role, known_name, names_of, role_of};
pub use standings::{Standing, is_array, is_called, is_scalar, name_type, rank_of, standing_of};
pub use types::{initial_word, letter_words, name_word, storage_type};

//! Lattices: orders in which two values have a least upper bound, of pairs, flat values, values upside down, and maps.
//!
//! The orders in which analyses compute. A type is a `Lattice` where it gives `bottom`, `leq` and `join` and proves
//! their laws; it is one of the `Meets` where it also gives `top` and `meet`. A layer above may rely on this and on
//! nothing else:
//!
//! - `leq` is reflexive, transitive and antisymmetric, where equal means the same value and not merely equivalent.
//!   The bottom is below every value, the top above every value.
//! - After `join` answers Ok, the value is the least upper bound of the two, and the answer is true exactly where
//!   the value rose. `meet` is its mirror image, and its answer is true exactly where the value fell. After want of
//!   memory the value is some value of its type, and nothing more is known of it.
//! - The laws speak of the values of the type (`is_value`), since a law ranges over everything that a contract can
//!   name: every list of entries for a map, every number for a `u8`. `leq` says of both its arguments that they are
//!   values, and so do `join` and `meet` after Ok.
//!
//! `joined` and `join_all` are proved from these laws alone.
//!
//! `Pair` goes part by part. `Flat` has a bottom, one level of values that are not comparable, and a top. `Dual`
//! turns a lattice that has a top and meets upside down, so a greatest solution is a least one over `Dual`. `Keyed`
//! is a finite map, seen as the list of its entries in the order of the keys: a key that it does not have stands
//! for the bottom, and it keeps no bottom, so that equal maps have equal entries. Its order is that of the values
//! at each key (`value_at`). `raise` joins a value to the one at a key and leaves the others, `get` reads, and
//! `iter` goes through the entries by rising keys.
//!
//! The values of `Flat` are `Plain`: their `==` tells them apart exactly, and a clone is the same value. The keys
//! of a `Keyed` are `Key`: the same of their order. Both traits have no functions, only these laws; numbers and
//! truth values have them here, and a type of names proves them where it is declared. `Keyed` wants its values
//! `Drop`, `Pair` its parts.
#![tactic(auto)]

mod dual;
mod exact;
mod flat;
mod keyed;
mod lattice;
mod pair;

pub use dual::Dual;
pub use exact::{Key, Plain};
pub use flat::Flat;
pub use keyed::Keyed;
pub use lattice::{Lattice, Meets, join_all, joined};
pub use pair::Pair;

#[cfg(test)]
mod tests;

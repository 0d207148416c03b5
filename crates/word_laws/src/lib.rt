//! Integers stay in 64 bits.
//!
//! Integers of the meaning have no bounds of their own: each operator wraps. What comes from outside is the input, and
//! the literals of the text, which the trees hold as numbers.
//!
//! - `word_law` source: where each literal of the units and each integer of the input has 64 bits (`unit_has_word64`,
//!   `AllWord64`), so has each INTEGER cell of a run, at every number of steps, and so has the input that is left.
//! - `word_law` same: that run is `Source`.
//! - `word_law` activation: of any unit on any actual arguments from any such world the same holds, and its answer is
//!   such a value.
//!
//! So compiled code may keep a cell in a register, and a `READ` that takes 64 bits sees all there is. The proof goes by
//! acts that store only such values wherever they read, take and are answered such (`proofs/Acts`), terms and statements
//! with such literals (`proofs/Terms`, `Turns`), and what trees are looked up to (`proofs/Trees`, `Constants`).
#![tactic(auto)]

ghost use Rattle.word_laws.specs.Words.{ActivationsStayInWord64, IsTheSource, StaysInWord64};

/// From literals and an input of integers of 64 bits every INTEGER cell of a run has 64 bits.
pub fn word_law()
    ensures source { StaysInWord64 }
    ensures same { IsTheSource }
    ensures activation { ActivationsStayInWord64 }
{}

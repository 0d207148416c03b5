//! What the roles and types of a unit's names follow from.
ghost use Rattle.std.specs.Prelude.{◌≡◌, IfOk};
ghost use Rattle.f77_names.specs.Declarations as d;
ghost use Rattle.f77_names.specs.Roles as r;

use super::attributes::{Attributes, attributes_of};
use super::declarations::{Declaration, Shape, shapes_of, words_of};
use super::occurrences::Occurrence;
use super::types::letter_words;
use f77_tree::{List, Name, TypeWord, Unit, Value};
use f77_values::{Table, constants_of};
use std::alloc::{AllocError, Global};

/// What the roles and types of a unit's names follow from.
pub struct Facts {
    pub attributes: Attributes,
    /// The named constants.
    pub constants: Table<Value>,
    /// The shapes of arrays.
    pub shapes: Table<Shape>,
    /// The types that statements tell.
    pub words: Table<TypeWord>,
    /// The type of each letter, by its code.
    pub letters: List<TypeWord>,
}

// A call of its own, so that who drops it doesn't open its tables.
impl Drop for Facts {
    fn drop(self) {
        let Facts {
            attributes,
            constants,
            shapes,
            words,
            letters,
        } = self;
    }
}

/// What the roles and types of a unit's names follow from, given its occurrences and its declarations.
pub fn facts_of(
    alloc: Global,
    unit: &Unit,
    all: &List<Occurrence>,
    declarations: &List<Declaration>,
) -> Result<Facts, AllocError>
    requires { declarations.now ≡ d.declarations unit.now.statements }
    ensures { IfOk result (λ f. f ≡ r.facts_with all.now unit.now) }
{
    Ok(Facts {
        attributes: attributes_of(alloc, all)?,
        constants: constants_of(alloc, &unit.statements)?,
        shapes: shapes_of(alloc, declarations)?,
        words: words_of(alloc, declarations)?,
        letters: letter_words(alloc, &unit.statements)?,
    })
}

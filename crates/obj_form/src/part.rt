//! Arrays whose parts are of one form.
ghost use Rattle.std.specs.Prelude.{◌≡◌, IfOk, MatchOption};
ghost use Rattle.serde_json.specs.Data.{Data};
ghost use Rattle.serde_json.specs.View.{view};
ghost use Rattle.obj_form.specs.Grammar.{IsArrayOf, Reads, Writes, three, two};

use f77_tree::List;
use serde_json::{Value as Json, json};
use std::alloc::{AllocError, Global};

/// What stands in an array, as a form of the grammar.
pub trait Part: Drop {
    // Which JSON stands for which part.
    ghost form: { Data → Self → Type 0 };

    /// The part as JSON.
    fn part_value(&self, alloc: Global) -> Result<Json, AllocError>
        ensures { IfOk result (λ v. Writes form (view v) self.now) };

    /// The part that stands there.
    fn part_of(alloc: Global, value: &Json) -> Result<Option<Self>, AllocError>
        ensures { IfOk result (Reads form (view value.now)) };
}

/// The array of the parts.
pub fn array_value<T: Part>(alloc: Global, parts: &[T]) -> Result<Json, AllocError>
    ensures { IfOk result (λ v. Writes (IsArrayOf T.form) (view v) parts.now) }
{
    let mut values = Vec::new(alloc);
    'part: for part in parts {
        values.push(part.part_value(alloc)?)?;
    }
    Ok(Json::Array(values))
}

/// The parts of the array that stands there.
pub fn array_of<T: Part>(alloc: Global, value: &Json) -> Result<Option<List<T>>, AllocError>
    ensures { IfOk result (Reads (IsArrayOf T.form) (view value.now)) }
{
    let Some(values) = value.as_array() else {
        return Ok(None);
    };
    let mut parts = List::new(alloc);
    'part: for value in values {
        let Some(part) = T::part_of(alloc, value)? else {
            return Ok(None);
        };
        parts.push(part)?;
    }
    Ok(Some(parts))
}

/// The parts of an array of two.
#[tactic(auto, using(crate::proofs::Arrays::two_here, crate::proofs::Arrays::two_parts))]
pub fn two_of(value: &Json) -> Option<(&Json, &Json)>
    ensures { MatchOption result ((a b : Data) → view value.now ≡ two a b → ⊥) (λ p. view value.now ≡ two (view p.0.now) (view p.1.now)) }
{
    let parts = value.as_array()?;
    if parts.len() != 2 {
        return None;
    }
    Some((&parts[0], &parts[1]))
}

/// The parts of an array of three.
#[tactic(auto, using(crate::proofs::Arrays::three_here, crate::proofs::Arrays::three_parts))]
pub fn three_of(value: &Json) -> Option<(&Json, &Json, &Json)>
    ensures { MatchOption result ((a b c : Data) → view value.now ≡ three a b c → ⊥) (λ p. view value.now ≡ three (view p.0.now) (view p.1.now) (view p.2.now)) }
{
    let parts = value.as_array()?;
    if parts.len() != 3 {
        return None;
    }
    Some((&parts[0], &parts[1], &parts[2]))
}

/// The array of two parts.
pub fn two_value(alloc: Global, first: Json, second: Json) -> Result<Json, AllocError>
    ensures { IfOk result (λ v. view v ≡ two (view first) (view second)) }
{
    json!(in alloc; [first, second])
}

/// The array of three parts.
pub fn three_value(
    alloc: Global,
    first: Json,
    second: Json,
    third: Json,
) -> Result<Json, AllocError>
    ensures { IfOk result (λ v. view v ≡ three (view first) (view second) (view third)) }
{
    json!(in alloc; [first, second, third])
}

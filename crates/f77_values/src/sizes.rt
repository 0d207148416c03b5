//! The sizes of arrays.
ghost use Rattle.std.specs.Prelude.{◌≡◌, ◌*◌};
ghost use Rattle.std.specs.Option.{option_map};
ghost use Rattle.f77_values.specs.Tables.{saturated};
ghost use Rattle.f77_values.specs.Sizes as s;

use super::constants::evaluate;
use super::tables::Table;
use f77_tree::{Expr, List, Value};

/// The lower and the upper bound of each dimension. A lower bound that isn't there is 1, an upper one is `*`.
pub type Bounds = List<(Option<Expr>, Option<Expr>)>;

// The greatest number of storage units that a place or a size tells.
const MOST: u32 = u32::MAX;

/// An integer value.
pub fn whole(value: Option<Value>) -> Option<i64>
    ensures { result ≡ s.whole value }
{
    match value {
        Some(Value::Integer(n)) => Some(n),
        _ => None,
    }
}

/// A lower bound, where it is constant. One that isn't there is 1.
pub fn lower(constants: &Table<Value>, bound: &Option<Expr>) -> Option<i64>
    ensures { result ≡ s.lower constants.now bound.now }
{
    match bound {
        Some(e) => whole(evaluate(constants, e)),
        None => Some(1),
    }
}

/// An upper bound, where it is constant. One that isn't there is `*`, and is none.
pub fn upper(constants: &Table<Value>, bound: &Option<Expr>) -> Option<i64>
    ensures { result ≡ s.upper constants.now bound.now }
{
    match bound {
        Some(e) => whole(evaluate(constants, e)),
        None => None,
    }
}

fn span(low: i64, high: i64) -> u32
    ensures { result ≡ saturated (s.span low high) }
{
    if low <= high {
        high.abs_diff(low).saturating_add(1).min(MOST as u64) as u32
    } else {
        0
    }
}

fn between(low: Option<i64>, high: Option<i64>) -> Option<u32>
    ensures { result ≡ option_map saturated (s.between low high) }
{
    match (low, high) {
        (Some(low), Some(high)) => Some(span(low, high)),
        _ => None,
    }
}

fn product(a: u32, b: u32) -> u32
    ensures { result ≡ saturated (a * b) }
{
    (a as u64 * b as u64).min(MOST as u64) as u32
}

fn times(a: Option<u32>, b: Option<u32>) -> Option<u32>
    ensures { result ≡ option_map saturated (s.times a b) }
{
    match (a, b) {
        (Some(a), Some(b)) => Some(product(a, b)),
        _ => None,
    }
}

fn extent(constants: &Table<Value>, bound: &(Option<Expr>, Option<Expr>)) -> Option<u32>
    ensures { result ≡ option_map saturated (s.extent constants.now bound.now) }
{
    between(lower(constants, &bound.0), upper(constants, &bound.1))
}

/// The number of elements of an array with these bounds under these named constants, at most 4,294,967,295, where all bounds are constant.
pub fn elements(constants: &Table<Value>, bounds: &Bounds) -> Option<u32>
    ensures { result ≡ option_map saturated (s.elements constants.now bounds.now) }
{
    let mut size = Some(1);
    for bound in bounds.as_slice() {
        size = times(size, extent(constants, bound));
    }
    size
}

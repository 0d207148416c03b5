//! How far the elements of an array are behind its first one.
ghost use Rattle.std.specs.Prelude.{◌≡◌, ◌≤◌, ◌*◌, ◌^◌, ℕ, IfSome, Some};
ghost use Rattle.std.specs.Option.{option_map};
ghost use Rattle.f77_values.specs.Tables.{saturated};
ghost use Rattle.f77_values.specs.Sizes as z;
ghost use Rattle.check_common.specs.Storage as s;

use f77_tree::{Expr, Value};
use f77_values::{Table, evaluate, lower, upper, whole};

// The greatest distance that is told.
const MOST: u32 = u32::MAX;

fn steps(low: Option<i64>, high: Option<i64>, n: Option<i64>) -> Option<u64>
    ensures { result ≡ s.steps low high n }
{
    let (Some(low), Some(high), Some(n)) = (low, high, n) else {
        return None;
    };
    if low <= n && n <= high {
        return Some(n.abs_diff(low));
    }
    None
}

fn steps_in(
    all: &Table<Value>,
    named: &Table<Value>,
    bound: &(Option<Expr>, Option<Expr>),
    e: &Expr,
) -> Option<u64>
    ensures { result ≡ s.steps_in all.now named.now bound.now e.now }
{
    let n = whole(evaluate(named, e));
    steps(lower(all, &bound.0), upper(all, &bound.1), n)
}

fn between(low: Option<i64>, high: Option<i64>) -> Option<u128>
    ensures size { result ≡ z.between low high }
    ensures small { IfSome result (λ size. size ≤ 2 ^ 64) }
{
    let (Some(low), Some(high)) = (low, high) else {
        return None;
    };
    if low <= high {
        return Some(high.abs_diff(low) as u128 + 1);
    }
    Some(0)
}

fn extent(all: &Table<Value>, bound: &(Option<Expr>, Option<Expr>)) -> Option<u128>
    ensures size { result ≡ z.extent all.now bound.now }
    ensures small { IfSome result (λ size. size ≤ 2 ^ 64) }
{
    between(lower(all, &bound.0), upper(all, &bound.1))
}

fn product(extent: u128, others: u32) -> u128
    requires { extent ≤ 2 ^ 64 }
    ensures value { result ≡ extent * others }
    ensures small { result ≤ 2 ^ 96 }
{
    extent * others as u128
}

fn joined(i: Option<u64>, extent: Option<u128>, others: u32) -> Option<u32>
    requires { IfSome extent (λ size. size ≤ 2 ^ 64) }
    ensures { (k : ℕ) → others ≡ saturated k → result ≡ option_map saturated (s.joined i extent (Some k)) }
{
    let (Some(i), Some(extent)) = (i, extent) else {
        return None;
    };
    let offset = i as u128 + product(extent, others);
    Some(offset.min(MOST as u128) as u32)
}

/// How far an element is behind the first one of an array with these bounds, at most 4,294,967,295. There is none where a subscript isn't
/// within its bounds, or they aren't constant.
pub fn offset(
    all: &Table<Value>,
    named: &Table<Value>,
    bounds: &[(Option<Expr>, Option<Expr>)],
    subscripts: &[Expr],
) -> Option<u32>
    ensures { result ≡ option_map saturated (s.offset all.now named.now bounds.now subscripts.now) }
{
    if bounds.len() != subscripts.len() {
        return None;
    }
    let mut found = 0u32;
    for k in (0..bounds.len()).rev() {
        let bound = &bounds[k];
        let i = steps_in(all, named, bound, &subscripts[k]);
        let Some(next) = joined(i, extent(all, bound), found) else {
            return None;
        };
        found = next;
    }
    Some(found)
}

//! How many elements and constants the lists of DATA have.
ghost use Rattle.std.specs.Prelude.{◌≡◌, ◌≤◌, ◌*◌, ◌^◌};
ghost use Rattle.std.specs.Option.{option_map};
ghost use Rattle.f77_values.specs.Sizes as z;
ghost use Rattle.check_data.specs.Counting as t;
ghost use Rattle.check_data.specs.DataRuns as m;

use f77_tree::List;

fn span(low: i64, high: i64) -> u128
    ensures span { result ≡ z.span low high }
    ensures small { result ≤ 2 ^ 64 }
{
    if low <= high {
        return high.abs_diff(low) as u128 + 1;
    }
    0
}

fn between(side: &(Option<i64>, Option<i64>)) -> Option<u128>
    ensures { result ≡ z.between side.now.0 side.now.1 }
{
    let (Some(low), Some(high)) = (side.0, side.1) else {
        return None;
    };
    Some(span(low, high))
}

fn product(size: u128, extent: u128) -> u128
    ensures { result ≡ t.counted (size * extent) }
{
    size.saturating_mul(extent)
}

fn times(size: Option<u128>, extent: Option<u128>) -> Option<u128>
    ensures { result ≡ option_map t.counted (z.times size extent) }
{
    let (Some(size), Some(extent)) = (size, extent) else {
        return None;
    };
    Some(product(size, extent))
}

/// The number of elements of an array with these bounds, or the greatest number of 128 bits where it is more.
pub fn size_of(sides: &List<(Option<i64>, Option<i64>)>) -> Option<u128>
    ensures { result ≡ option_map t.counted (m.size_of sides.now) }
{
    let mut size = Some(1);
    for side in sides.as_slice() {
        size = times(size, between(side));
    }
    size
}

//! Runs in the order of their blocks and places.
ghost use Rattle.std.specs.Prelude.{◌≡◌, ◌≤◌, nat_lt, nat_le};
ghost use Rattle.std.specs.Ordering.{nat_cmp};
ghost use Rattle.std.specs.Cmp.Lexicographic.{slice_cmp};
ghost use Rattle.check_common.specs.Again as k;
ghost use Rattle.check_common.specs.Searching as s;

use super::initials::Initial;
use super::runs::Run;
use std::cmp::Ordering;

/// Whether a unit that isn't before a run stands before its end.
pub fn is_within(run: &Run, at: u128) -> bool
    requires { run.now.from ≤ at }
    ensures { result ≡ nat_lt at (k.end_of run.now) }
{
    at - run.from < run.size as u128
}

fn ends_before(a: &Run, b: &Run) -> bool
    ensures { result ≡ nat_le (k.end_of a.now) b.now.from }
{
    if b.from < a.from {
        return false;
    }
    a.size as u128 <= b.from - a.from
}

fn block_order(a: &Run, b: &Run) -> Ordering
    ensures { result ≡ slice_cmp nat_cmp a.now.block b.now.block }
{
    a.block.as_bytes().cmp(b.block.as_bytes())
}

/// The order of two runs by block, and within one by place.
pub fn order(a: &Run, b: &Run) -> Ordering {
    block_order(a, b).then(a.from.cmp(&b.from))
}

fn is_apart(a: &Run, b: &Run) -> bool
    ensures { result ≡ s.is_apart a.now b.now }
{
    match block_order(a, b) {
        Ordering::Less => true,
        Ordering::Equal => ends_before(a, b),
        Ordering::Greater => false,
    }
}

/// Whether each run stands before the next one and has none of its units.
pub fn are_apart(all: &[Initial]) -> bool
    ensures { result ≡ s.all_apart all.now }
{
    for k in 1..all.len() {
        if !is_apart(&all[k - 1].run, &all[k].run) {
            return false;
        }
    }
    true
}

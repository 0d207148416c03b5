//! The first statement of DATA that initialises what an earlier unit does.
ghost use Rattle.std.specs.Prelude.{◌≡◌, ◌&&◌, nat_lt, max, min, IfOk};
ghost use Rattle.check_common.specs.Again as k;
ghost use Rattle.check_common.specs.Initials as i;
ghost use Rattle.check_common.specs.Searching as s;

use super::initials::{Initial, initials_of};
use super::order::{are_apart, is_within, order};
use super::runs::Run;
use f77_tree::Unit;
use std::alloc::{AllocError, Global};

/// A statement by the place of its unit in the list, and its line there.
#[derive(Clone, Copy, Debug, Drop)]
pub struct Again {
    pub place: usize,
    pub line: u32,
}

#[tactic(auto, using(crate::proofs::Apart::shared))]
fn share(a: &Run, b: &Run) -> bool
    ensures { result ≡ nat_lt (max a.now.from b.now.from) (min (k.end_of a.now) (k.end_of b.now)) }
{
    let at = a.from.max(b.from);
    is_within(a, at) & is_within(b, at)
}

fn overlap(a: &Run, b: &Run) -> bool
    ensures { result ≡ k.overlap a.now b.now }
{
    a.block == b.block && share(a, b)
}

fn meets(all: &[Initial], later: &Initial) -> bool
    ensures { result ≡ s.meets all.now later.now }
{
    all.iter().any(|earlier| earlier.unit < later.unit && overlap(&earlier.run, &later.run))
}

fn mark_of(x: &Initial) -> Again
    ensures { result ≡ k.mark_of x.now }
{
    Again {
        place: x.unit,
        line: x.line,
    }
}

fn comes_first(a: Again, b: Again) -> bool
    ensures { result ≡ s.comes_first a b }
{
    if a.place == b.place {
        return a.line <= b.line;
    }
    a.place < b.place
}

fn is_found(found: Option<Again>, mark: Again) -> bool
    ensures { result ≡ s.is_found found mark }
{
    match found {
        Some(found) => comes_first(found, mark),
        None => false,
    }
}

fn with_later(all: &[Initial], found: Option<Again>, later: &Initial) -> Option<Again>
    ensures { result ≡ s.with_later all.now found later.now }
{
    let mark = mark_of(later);
    if is_found(found, mark) {
        return found;
    }
    if meets(all, later) { Some(mark) } else { found }
}

fn search(all: &[Initial]) -> Option<Again>
    ensures { result ≡ s.search all.now }
{
    let mut found = None;
    for later in all {
        found = with_later(all, found, later);
    }
    found
}

/// Where the runs are apart there is none. Else each is compared with all that could stand before it.
fn first_again(all: &[Initial]) -> Option<Again>
    ensures { k.FirstAgain all.now result }
{
    if are_apart(all) {
        return None;
    }
    search(all)
}

/// The first statement of DATA, by unit and then by line, that initialises a storage unit of a COMMON block which an earlier unit of the
/// list initialises too. Where there is none, this takes a pass over the statements and a sort of the items of DATA that are in COMMON.
pub fn initialised_again(alloc: Global, units: &[Unit]) -> Result<Option<Again>, AllocError>
    ensures first { IfOk result (λ again. k.FirstAgain (i.initials units.now) again) }
{
    let mut all = initials_of(alloc, units)?;
    all.sort_unstable_by(|a, b| order(&a.run, &b.run));
    Ok(first_again(all.as_slice()))
}

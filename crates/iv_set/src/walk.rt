//! Two lists of bounds gone through at once.
ghost use Rattle.std.specs.Prelude.{◌≡◌, Bool, false, not, [], ◌++◌, IfOk, MatchOption};
ghost use Rattle.std.specs.Option.{option_copied};
ghost use Rattle.iv_set.specs.Toggles.{emit, is_empty, head};
ghost use Rattle.iv_set.specs.Sets.{made};
ghost use Rattle.iv_set.specs.Walks.{holds, rest_of, Comes};

use crate::bound::{Bound, compare};
use std::alloc::{AllocError, Global};
use std::cmp::Ordering;

/// How the members of two sets make those of a third.
#[derive(Clone, Copy, Drop)]
pub enum Rule {
    Either,
    Both,
    FirstAlone,
}

/// Where a walk stands: what is left of both lists, and whether the next place is a member of each set.
#[derive(Clone, Copy)]
pub struct Walk<'a> {
    pub first: &'a [Bound],
    pub second: &'a [Bound],
    pub in_first: bool,
    pub in_second: bool,
}

impl Rule {
    fn holds(self, first: bool, second: bool) -> bool
        ensures { result ≡ holds self first second }
    {
        match self {
            Rule::Either => if first { true } else { second },
            Rule::Both => if first { second } else { false },
            Rule::FirstAlone => if first { !second } else { false },
        }
    }
}

// The lowest bound of the two lists, and where the walk stands behind it.
fn step<'a>(at: Walk<'a>) -> Option<(&'a Bound, Walk<'a>)>
    ensures { MatchOption result ((f : Bool → Bool → Bool) → rest_of f at.entry ≡ []) (λ p. Comes at.entry p.0.now p.1) }
{
    match at.first.split_first() {
        None => match at.second.split_first() {
            None => None,
            Some((y, ys)) => Some((
                y,
                Walk {
                    first: at.first,
                    second: ys,
                    in_first: at.in_first,
                    in_second: !at.in_second,
                },
            )),
        },
        Some((x, xs)) => match at.second.split_first() {
            None => Some((
                x,
                Walk {
                    first: xs,
                    second: at.second,
                    in_first: !at.in_first,
                    in_second: at.in_second,
                },
            )),
            Some((y, ys)) => match compare(x, y) {
                Ordering::Less => Some((
                    x,
                    Walk {
                        first: xs,
                        second: at.second,
                        in_first: !at.in_first,
                        in_second: at.in_second,
                    },
                )),
                Ordering::Equal => Some((
                    x,
                    Walk {
                        first: xs,
                        second: ys,
                        in_first: !at.in_first,
                        in_second: !at.in_second,
                    },
                )),
                Ordering::Greater => Some((
                    y,
                    Walk {
                        first: at.first,
                        second: ys,
                        in_first: at.in_first,
                        in_second: !at.in_second,
                    },
                )),
            },
        },
    }
}

// The walk from before both lists.
fn start<'a>(first: &'a [Bound], second: &'a [Bound]) -> Walk<'a>
    ensures rest { (f : Bool → Bool → Bool) → rest_of f result ≡ made f first.now second.now }
    ensures nowhere { (rule : Rule) → holds rule result.in_first result.in_second ≡ false }
{
    Walk {
        first,
        second,
        in_first: false,
        in_second: false,
    }
}

/// The first place that is a member by the rule.
pub fn first_of<'a>(rule: Rule, first: &'a [Bound], second: &'a [Bound]) -> Option<&'a Bound>
    ensures { option_copied result ≡ head (made (holds rule) first.now second.now) }
{
    let mut at = start(first, second);
    'place: while let Some((bound, next)) = step(at) {
        if rule.holds(next.in_first, next.in_second) {
            return Some(bound);
        }
        at = next;
    }
    None
}

/// Whether any place is a member by the rule.
pub fn any(rule: Rule, first: &[Bound], second: &[Bound]) -> bool
    ensures { result ≡ not (is_empty (made (holds rule) first.now second.now)) }
{
    first_of(rule, first, second).is_some()
}

// Adds the bound where what holds from it on isn't what held before.
fn note(
    alloc: Global,
    bounds: &mut Vec<Bound>,
    bound: &Bound,
    old: bool,
    new: bool,
) -> Result<(), AllocError>
    ensures { IfOk result (λ _. bounds.new.items ≡ bounds.old.items ++ emit bound.now old new []) }
{
    if old {
        if new {
            return Ok(());
        }
        bounds.push(bound.copy(alloc)?)?;
        Ok(())
    } else {
        if new {
            bounds.push(bound.copy(alloc)?)?;
        }
        Ok(())
    }
}

/// The set of the places that are members by the rule.
pub fn combined(
    alloc: Global,
    rule: Rule,
    first: &[Bound],
    second: &[Bound],
) -> Result<Vec<Bound>, AllocError>
    ensures { IfOk result (λ all. all.items ≡ made (holds rule) first.now second.now) }
{
    let mut bounds = Vec::new(alloc);
    let mut at = start(first, second);
    'place: while let Some((bound, next)) = step(at) {
        let old = rule.holds(at.in_first, at.in_second);
        let new = rule.holds(next.in_first, next.in_second);
        note(alloc, &mut bounds, bound, old, new)?;
        at = next;
    }
    Ok(bounds)
}

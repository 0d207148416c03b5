//! Two lists of steps gone through at once.
ghost use Rattle.std.specs.Prelude.{◌≡◌, not, None, Option, [], ◌++◌, IfOk, MatchOption};
ghost use Rattle.std.specs.Option.{option_copied};
ghost use Rattle.f77_tree.specs.declared.unit.Value.{Value};
ghost use Rattle.item_maps.specs.Steps.{same, emit, made};
ghost use Rattle.item_maps.specs.Walks.{holds, rest_of, first_place, Comes};

use crate::step::{Step, same};
use f77_tree::Value;
use iv_set::{Bound, compare};
use std::alloc::{AllocError, Global};
use std::cmp::Ordering;

/// How the values of two maps make those of a third.
#[derive(Clone, Copy, Drop)]
pub enum Rule {
    Over,
    WhereSecond,
    Unlike,
}

/// Where a walk stands: what is left of both lists, and the values of the next place.
#[derive(Clone, Copy)]
pub struct Walk<'a> {
    pub first: &'a [Step],
    pub second: &'a [Step],
    pub of_first: Option<Value>,
    pub of_second: Option<Value>,
}

impl Rule {
    fn value(self, first: Option<Value>, second: Option<Value>) -> Option<Value>
        ensures { result ≡ holds self first second }
    {
        match self {
            Rule::Over => match second {
                Some(_) => second,
                None => first,
            },
            Rule::WhereSecond => match second {
                Some(_) => first,
                None => None,
            },
            Rule::Unlike => if same(first, second) { None } else { first },
        }
    }
}

// The lowest place of the two lists, and where the walk stands behind it.
fn step<'a>(at: Walk<'a>) -> Option<(&'a Bound, Walk<'a>)>
    ensures { MatchOption result ((f : Option Value → Option Value → Option Value) → rest_of f at.entry ≡ []) (λ p. Comes at.entry p.0.now p.1) }
{
    match at.first.split_first() {
        None => match at.second.split_first() {
            None => None,
            Some((y, ys)) => Some((
                &y.at,
                Walk {
                    first: at.first,
                    second: ys,
                    of_first: at.of_first,
                    of_second: y.value,
                },
            )),
        },
        Some((x, xs)) => match at.second.split_first() {
            None => Some((
                &x.at,
                Walk {
                    first: xs,
                    second: at.second,
                    of_first: x.value,
                    of_second: at.of_second,
                },
            )),
            Some((y, ys)) => match compare(&x.at, &y.at) {
                Ordering::Less => Some((
                    &x.at,
                    Walk {
                        first: xs,
                        second: at.second,
                        of_first: x.value,
                        of_second: at.of_second,
                    },
                )),
                Ordering::Equal => Some((
                    &x.at,
                    Walk {
                        first: xs,
                        second: ys,
                        of_first: x.value,
                        of_second: y.value,
                    },
                )),
                Ordering::Greater => Some((
                    &y.at,
                    Walk {
                        first: at.first,
                        second: ys,
                        of_first: at.of_first,
                        of_second: y.value,
                    },
                )),
            },
        },
    }
}

// The walk from before both lists.
fn start<'a>(first: &'a [Step], second: &'a [Step]) -> Walk<'a>
    ensures rest { (f : Option Value → Option Value → Option Value) → rest_of f result ≡ made f first.now second.now }
    ensures nowhere { (rule : Rule) → holds rule result.of_first result.of_second ≡ None }
{
    Walk {
        first,
        second,
        of_first: None,
        of_second: None,
    }
}

/// The first place that has a value by the rule.
pub fn first_of<'a>(rule: Rule, first: &'a [Step], second: &'a [Step]) -> Option<&'a Bound>
    ensures { option_copied result ≡ first_place (made (holds rule) first.now second.now) }
{
    let mut at = start(first, second);
    'place: while let Some((bound, next)) = step(at) {
        if rule.value(next.of_first, next.of_second).is_some() {
            return Some(bound);
        }
        at = next;
    }
    None
}

// Adds a step where the value from it on isn't the one before.
fn note(
    alloc: Global,
    steps: &mut Vec<Step>,
    bound: &Bound,
    old: Option<Value>,
    new: Option<Value>,
) -> Result<(), AllocError>
    ensures { IfOk result (λ _. steps.new.items ≡ steps.old.items ++ emit bound.now old new []) }
{
    if same(old, new) {
        return Ok(());
    }
    steps.push(Step {
        at: bound.copy(alloc)?,
        value: new,
    })?;
    Ok(())
}

/// The map by the rule.
pub fn combined(
    alloc: Global,
    rule: Rule,
    first: &[Step],
    second: &[Step],
) -> Result<Vec<Step>, AllocError>
    ensures { IfOk result (λ all. all.items ≡ made (holds rule) first.now second.now) }
{
    let mut steps = Vec::new(alloc);
    let mut at = start(first, second);
    'place: while let Some((bound, next)) = step(at) {
        let old = rule.value(at.of_first, at.of_second);
        let new = rule.value(next.of_first, next.of_second);
        note(alloc, &mut steps, bound, old, new)?;
        at = next;
    }
    Ok(steps)
}

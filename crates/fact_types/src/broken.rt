//! Why a record doesn't hold of new facts.
ghost use Rattle.std.specs.Prelude.{◌≡◌, length, zero, IfOk, MatchOption};
ghost use Rattle.std.specs.List.{AllZip};
ghost use Rattle.iv_set.specs.Toggles.{first_alone};
ghost use Rattle.iv_set.specs.Sets.{has_item};
ghost use Rattle.iv_set.specs.Least.{IsLeast};
ghost use Rattle.item_maps.specs.Relation.{IsLeastPair};
ghost use Rattle.fact_types.specs.Facts.{Inside, SameCallees};
ghost use Rattle.fact_types.specs.Broken.{number, part_of, PartInside, IsFirstSite, AliasesInside, ConstantsHold, IsFirstConstant, IsFirstBroken};

use crate::facts::{Facts, SiteFacts};
use f77_tree::{Item, Value};
use item_maps::Pairs;
use iv_set::Ranges;
use std::alloc::{AllocError, Global};

/// Why a unit is compiled again: it is new, or its source changed; a site, by its number from 1, may change or read an
/// item that the record lacks there; two items may share storage; or an item had another value at entry, where the new
/// one may be unknown.
#[derive(Drop)]
pub enum Reason {
    New,
    Changed,
    Mod(u32, Item),
    Ref(u32, Item),
    Alias(Item, Item),
    Constant(Item, Value, Option<Value>),
}

/// The items that a call changes, or those that it reads.
#[derive(Clone, Copy, Drop)]
pub enum Part {
    Mod,
    Ref,
}

fn set_of(part: Part, site: &SiteFacts) -> &Ranges
    ensures { result.now ≡ part_of part site.now }
{
    match part {
        Part::Mod => &site.may_mod,
        Part::Ref => &site.may_ref,
    }
}

fn number_of(at: usize) -> u32
    ensures { result ≡ number at }
{
    if at < 4_294_967_294 {
        at as u32 + 1
    } else {
        u32::MAX
    }
}

// The least item of the set that the other one lacks.
fn beyond(alloc: Global, set: &Ranges, other: &Ranges) -> Result<Option<Item>, AllocError>
    ensures { IfOk result (λ found. MatchOption found (Inside set.now other.now) (IsLeast (λ j. first_alone (has_item set.now j) (has_item other.now j)))) }
{
    if set.within(other) {
        return Ok(None);
    }
    match set.least_beyond(alloc, other)? {
        Some(item) => Ok(Some(item)),
        None => Ok(None),
    }
}

// The first site whose new set has an item that the record lacks, with the least such item.
fn first_site(
    alloc: Global,
    part: Part,
    now: &[SiteFacts],
    kept: &[SiteFacts],
) -> Result<Option<(u32, Item)>, AllocError>
    requires { length now.now ≡ length kept.now }
    ensures { IfOk result (λ found. MatchOption found (AllZip (PartInside part) now.now kept.now) (λ p. IsFirstSite part zero now.now kept.now p.0 p.1)) }
{
    for at in 0..now.len() {
        match beyond(alloc, set_of(part, &now[at]), set_of(part, &kept[at]))? {
            Some(item) => return Ok(Some((number_of(at), item))),
            None => {}
        }
    }
    Ok(None)
}

fn first_alias(alloc: Global, kept: &Pairs, now: &Pairs) -> Result<Option<(u32, Item)>, AllocError>
    ensures { IfOk result (λ found. MatchOption found (AliasesInside now.now kept.now) (λ p. IsLeastPair now.now kept.now p.0 p.1)) }
{
    if now.within(kept) {
        return Ok(None);
    }
    match now.least_beyond(alloc, kept)? {
        Some(pair) => Ok(Some(pair)),
        None => Ok(None),
    }
}

fn first_constant(
    alloc: Global,
    kept: &Facts,
    now: &Facts,
) -> Result<Option<(Item, Value, Option<Value>)>, AllocError>
    ensures { IfOk result (λ found. MatchOption found (ConstantsHold kept.now now.now) (λ p. IsFirstConstant kept.now now.now p.0 p.1 p.2)) }
{
    if !now.entered {
        return Ok(None);
    }
    if kept.constants.within(&now.constants) {
        return Ok(None);
    }
    match kept.constants.least_unlike(alloc, &now.constants)? {
        Some(item) => match kept.constants.get(&item) {
            Some(old) => {
                let new = now.constants.get(&item);
                Ok(Some((item, old, new)))
            }
            None => Ok(None),
        },
        None => Ok(None),
    }
}

/// The first reason why a record doesn't hold of new facts, by kind, then by site, then by item; none exactly where it
/// holds (`satisfied`).
pub fn first_broken(alloc: Global, kept: &Facts, now: &Facts) -> Result<Option<Reason>, AllocError>
    requires { SameCallees kept.now now.now }
    ensures { IfOk result (IsFirstBroken kept.now now.now) }
{
    let sites = now.sites.as_slice();
    let old_sites = kept.sites.as_slice();
    match first_site(alloc, Part::Mod, sites, old_sites)? {
        Some((site, item)) => return Ok(Some(Reason::Mod(site, item))),
        None => {}
    }
    match first_site(alloc, Part::Ref, sites, old_sites)? {
        Some((site, item)) => return Ok(Some(Reason::Ref(site, item))),
        None => {}
    }
    match first_alias(alloc, &kept.aliases, &now.aliases)? {
        Some((dummy, item)) => return Ok(Some(Reason::Alias(Item::Dummy(dummy), item))),
        None => {}
    }
    match first_constant(alloc, kept, now)? {
        Some((item, old, new)) => Ok(Some(Reason::Constant(item, old, new))),
        None => Ok(None),
    }
}

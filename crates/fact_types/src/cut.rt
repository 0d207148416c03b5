//! Facts of a whole program, cut to what a unit owns.
ghost use Rattle.std.specs.Prelude.{IfOk};
ghost use Rattle.std.specs.List.{AllZip};
ghost use Rattle.fact_types.specs.Facts.{IsCut, IsSiteCut, IsFactsOf};

use crate::facts::{Facts, SiteFacts};
use f77_tree::List;
use item_maps::Pairs;
use iv_set::Ranges;
use std::alloc::{AllocError, Global};

fn cut_set(alloc: Global, aliases: &Pairs, own: &Ranges, set: &Ranges) -> Result<Ranges, AllocError>
    ensures { IfOk result (IsCut aliases.now own.now set.now) }
{
    let joined = aliases.joined(alloc, set)?;
    let cut = joined.cut(alloc, own)?;
    Ok(cut)
}

fn cut_site(
    alloc: Global,
    aliases: &Pairs,
    own: &Ranges,
    site: &SiteFacts,
) -> Result<SiteFacts, AllocError>
    ensures { IfOk result (IsSiteCut aliases.now own.now site.now) }
{
    let may_mod = cut_set(alloc, aliases, own, &site.may_mod)?;
    let may_ref = cut_set(alloc, aliases, own, &site.may_ref)?;
    Ok(SiteFacts {
        callee: site.callee.copy(alloc)?,
        may_mod,
        may_ref,
    })
}

fn cut_sites(
    alloc: Global,
    aliases: &Pairs,
    own: &Ranges,
    sites: &[SiteFacts],
) -> Result<List<SiteFacts>, AllocError>
    ensures { IfOk result (AllZip (IsSiteCut aliases.now own.now) sites.now) }
{
    let mut cut = List::new(alloc);
    for site in sites {
        cut.push(cut_site(alloc, aliases, own, site)?)?;
    }
    Ok(cut)
}

/// The facts of a unit, of those of the program: its sites cut to own items, the pairs of own items, whether it is
/// entered, and the constants of those own items that it uses itself.
pub fn facts_of(
    alloc: Global,
    whole: &Facts,
    own: &Ranges,
    used: &Ranges,
) -> Result<Facts, AllocError>
    ensures { IfOk result (IsFactsOf whole.now own.now used.now) }
{
    let sites = cut_sites(alloc, &whole.aliases, own, whole.sites.as_slice())?;
    let aliases = whole.aliases.restricted(alloc, own)?;
    let wanted = own.cut(alloc, used)?;
    let constants = whole.constants.restricted(alloc, &wanted)?;
    Ok(Facts {
        entered: whole.entered,
        sites,
        aliases,
        constants,
    })
}

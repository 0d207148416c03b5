//! Whether a record still holds of new facts.
ghost use Rattle.std.specs.Prelude.{◌≡◌, length, IsTrue};
ghost use Rattle.std.specs.List.{AllZip};
ghost use Rattle.fact_types.specs.Facts.{IsSiteInside, IsSatisfied, SameCallees};

use crate::facts::{Facts, SiteFacts};

fn site_inside(now: &SiteFacts, kept: &SiteFacts) -> bool
    ensures inside { IsTrue result → IsSiteInside now.now kept.now }
    ensures only { IsSiteInside now.now kept.now → IsTrue result }
{
    if now.may_mod.within(&kept.may_mod) {
        now.may_ref.within(&kept.may_ref)
    } else {
        false
    }
}

fn sites_inside(now: &[SiteFacts], kept: &[SiteFacts]) -> bool
    requires { length now.now ≡ length kept.now }
    ensures inside { IsTrue result → AllZip IsSiteInside now.now kept.now }
    ensures only { AllZip IsSiteInside now.now kept.now → IsTrue result }
{
    for at in 0..now.len() {
        if !site_inside(&now[at], &kept[at]) {
            return false;
        }
    }
    true
}

/// Whether a record still holds: whether the MOD and REF sets and the pairs of the new facts lie in those of the
/// record, and each constant of the record is the same in the new facts, or the unit isn't entered any more.
///
/// It takes no memory.
pub fn satisfied(kept: &Facts, now: &Facts) -> bool
    requires { SameCallees kept.now now.now }
    ensures inside { IsTrue result → IsSatisfied kept.now now.now }
    ensures only { IsSatisfied kept.now now.now → IsTrue result }
{
    if !sites_inside(now.sites.as_slice(), kept.sites.as_slice()) {
        return false;
    }
    if !now.aliases.within(&kept.aliases) {
        return false;
    }
    if now.entered {
        kept.constants.within(&now.constants)
    } else {
        true
    }
}

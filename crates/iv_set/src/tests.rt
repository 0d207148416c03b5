ghost use Rattle.std.specs.Prelude.{◌≤◌};

use super::Ranges;
use f77_tree::Item;
use rn_lattice::Lattice;
use std::alloc::{AllocError, Global};
use std::test::Fail;

// The local units from one to another.
fn locals(alloc: Global, from: u32, to: u32) -> Result<Ranges, AllocError>
    requires { from ≤ to }
{
    let mut set = Ranges::empty(alloc)?;
    set.add(alloc, &Item::Local(from), &Item::Local(to))?;
    Ok(set)
}

#[test]
fn runs_that_touch_are_one(rt: HostRuntime) -> Result<(), Fail> {
    let alloc = rt.alloc();
    let mut set = locals(alloc, 3, 5)?;
    let rose = set.join(alloc, &locals(alloc, 6, 8)?)?;
    let all = locals(alloc, 3, 8)?;
    assert!(rt; rose && set.within(&all) && all.within(&set));
    Ok(())
}

#[test]
fn sets_meet_in_a_later_run(rt: HostRuntime) -> Result<(), Fail> {
    let alloc = rt.alloc();
    let mut set = locals(alloc, 0, 1)?;
    set.add(alloc, &Item::Local(4), &Item::Local(4))?;
    let other = locals(alloc, 2, 4)?;
    assert!(rt; set.meets(&other) && other.cut(alloc, &set)?.has(&Item::Local(4)));
    Ok(())
}

// The local units from a first one on, each third of them.
fn thirds(alloc: Global, first: u32) -> Result<Ranges, AllocError>
    requires { first ≤ 10 }
{
    let mut set = Ranges::empty(alloc)?;
    for run in 0..10000u32 {
        let at = Item::Local(3 * run + first);
        set.add(alloc, &at, &at)?;
    }
    Ok(set)
}

#[test]
fn sets_of_ten_thousand_runs(rt: HostRuntime) -> Result<(), Fail> {
    let alloc = rt.alloc();
    let mut set = thirds(alloc, 0)?;
    let other = thirds(alloc, 2)?;
    assert!(rt; !set.meets(&other) && !set.within(&other) && set.join(alloc, &other)?);
    assert!(rt;
        other.within(&set) && set.has(&Item::Local(29999)) && !set.has(&Item::Local(29998))
    );
    Ok(())
}

use super::{Dual, Flat, Keyed, Lattice, Meets, Pair, join_all};
use std::alloc::{AllocError, Global};
use std::test::Fail;

// Whether each is below the other.
fn is_same<L: Lattice>(left: &L, right: &L) -> bool {
    left.leq(right) && right.leq(left)
}

// The left value after the join, and whether it rose.
fn joined<L: Lattice + Drop>(alloc: Global, left: L, right: &L) -> Result<(L, bool), AllocError> {
    let mut value = left;
    let rose = value.join(alloc, right)?;
    Ok((value, rose))
}

// The left value after the meet, and whether it fell.
fn met<L: Meets + Drop>(alloc: Global, left: L, right: &L) -> Result<(L, bool), AllocError> {
    let mut value = left;
    let fell = value.meet(alloc, right)?;
    Ok((value, fell))
}

// 0 is the bottom, and 9 the top.
fn flat(number: u8) -> Flat<u8> {
    match number {
        0 => Flat::Bottom,
        9 => Flat::Top,
        _ => Flat::Is(number),
    }
}

fn dual(number: u8) -> Dual<Flat<u8>> {
    Dual {
        inner: flat(number),
    }
}

// Left, right, whether left is below, the least upper bound, and the greatest lower bound.
const FLATS: [(u8, u8, bool, u8, u8); 8] = [
    (0, 0, true, 0, 0),
    (0, 1, true, 1, 0),
    (1, 0, false, 1, 0),
    (1, 1, true, 1, 1),
    (1, 2, false, 9, 0),
    (1, 9, true, 9, 1),
    (9, 1, false, 9, 1),
    (9, 9, true, 9, 9),
];

#[test]
fn flat_values_and_their_duals(rt: HostRuntime) -> Result<(), Fail> {
    let alloc = rt.alloc();
    for (left, right, below, join, meet) in FLATS {
        assert_eq!(rt; flat(left).leq(&flat(right)), below, "{left} below {right}");
        let (value, rose) = joined(alloc, flat(left), &flat(right))?;
        assert!(rt;
            is_same(&value, &flat(join)) && rose == (left != join),
            "{left} join {right}"
        );
        let (value, fell) = met(alloc, flat(left), &flat(right))?;
        assert!(rt;
            is_same(&value, &flat(meet)) && fell == (left != meet),
            "{left} meet {right}"
        );
        assert_eq!(rt;
            dual(right).leq(&dual(left)),
            below,
            "dual {right} below {left}"
        );
        let (value, rose) = joined(alloc, dual(left), &dual(right))?;
        assert!(rt;
            is_same(&value, &dual(meet)) && rose == (left != meet),
            "dual {left} join {right}"
        );
        let (value, fell) = met(alloc, dual(left), &dual(right))?;
        assert!(rt;
            is_same(&value, &dual(join)) && fell == (left != join),
            "dual {left} meet {right}"
        );
    }
    assert!(rt; is_same(&Flat::bottom(alloc)?, &flat(0)) && is_same(&Flat::top(alloc)?, &flat(9)));
    assert!(rt; is_same(&Dual::bottom(alloc)?, &dual(9)) && is_same(&Dual::top(alloc)?, &dual(0)));
    Ok(())
}

fn pair(first: u8, second: u8) -> Pair<Flat<u8>, Dual<Flat<u8>>> {
    Pair {
        first: flat(first),
        second: dual(second),
    }
}

#[test]
fn pairs_part_by_part(rt: HostRuntime) -> Result<(), Fail> {
    let alloc = rt.alloc();
    // Left, right, whether left is below, the join, and the meet.
    let table = [
        ((0, 9), (1, 1), true, (1, 1), (0, 9)),
        ((1, 1), (1, 2), false, (1, 0), (1, 9)),
        ((1, 0), (2, 5), false, (9, 0), (0, 5)),
        ((9, 9), (3, 9), false, (9, 9), (3, 9)),
    ];
    for (left, right, below, join, meet) in table {
        assert_eq!(rt; pair(left.0, left.1).leq(&pair(right.0, right.1)), below);
        let (value, rose) = joined(alloc, pair(left.0, left.1), &pair(right.0, right.1))?;
        assert!(rt; is_same(&value, &pair(join.0, join.1)) && rose == (left != join));
        let (value, fell) = met(alloc, pair(left.0, left.1), &pair(right.0, right.1))?;
        assert!(rt; is_same(&value, &pair(meet.0, meet.1)) && fell == (left != meet));
    }
    assert!(rt;
        is_same(&Pair::bottom(alloc)?, &pair(0, 9)) && is_same(&Pair::top(alloc)?, &pair(9, 0))
    );
    Ok(())
}

// The map of these keys and values.
fn map(alloc: Global, entries: &[(u8, u8)]) -> Result<Keyed<u8, Dual<Flat<u8>>>, AllocError> {
    let mut map = Keyed::new(alloc);
    for (key, value) in entries {
        map.raise(alloc, key, &dual(*value))?;
    }
    Ok(map)
}

#[test]
fn maps_keep_no_bottom_and_go_by_key(rt: HostRuntime) -> Result<(), Fail> {
    let alloc = rt.alloc();
    let mut names = map(alloc, &[(7, 1), (3, 9), (5, 2)])?;
    assert!(rt; names.get(&3).is_none());
    assert!(rt; names.get(&7).is_some_and(|value| is_same(value, &dual(1))));
    assert!(rt; names.raise(alloc, &7, &dual(2))? && !names.raise(alloc, &7, &dual(4))?);
    let mut keys = Vec::new(alloc);
    for (key, _) in names.iter() {
        keys.push(*key)?;
    }
    assert_eq!(rt; keys.as_slice(), [5, 7].as_slice());
    assert!(rt; is_same(&names, &map(alloc, &[(5, 2), (7, 0)])?));
    Ok(())
}

#[test]
fn maps_key_by_key(rt: HostRuntime) -> Result<(), Fail> {
    let alloc = rt.alloc();
    let small = map(alloc, &[(1, 4)])?;
    let wide = map(alloc, &[(1, 4), (2, 4)])?;
    let other = map(alloc, &[(1, 5), (3, 0)])?;
    assert!(rt; small.leq(&wide) && !wide.leq(&small) && !small.leq(&other));
    assert!(rt; Keyed::bottom(alloc)?.leq(&small) && !small.leq(&Keyed::bottom(alloc)?));
    let (value, rose) = joined(alloc, map(alloc, &[(1, 4)])?, &other)?;
    assert!(rt; rose && is_same(&value, &map(alloc, &[(1, 0), (3, 0)])?));
    let (value, rose) = joined(alloc, value, &small)?;
    assert!(rt; !rose && !value.leq(&wide));
    Ok(())
}

#[test]
fn all_of_a_list_are_joined(rt: HostRuntime) -> Result<(), Fail> {
    let alloc = rt.alloc();
    let nothing: [Flat<u8>; 0] = [];
    assert!(rt; is_same(&join_all(alloc, &nothing)?, &flat(0)));
    assert!(rt; is_same(&join_all(alloc, &[flat(0), flat(4), flat(4)])?, &flat(4)));
    assert!(rt; is_same(&super::joined(alloc, flat(4), &flat(5))?, &flat(9)));
    assert!(rt; is_same(&join_all(alloc, &[dual(4), dual(5)])?, &dual(0)));
    let nested = [
        Pair {
            first: flat(4),
            second: map(alloc, &[(1, 4)])?,
        },
        Pair {
            first: flat(0),
            second: map(alloc, &[(2, 5), (1, 9)])?,
        },
    ];
    let all = join_all(alloc, &nested)?;
    let want = Pair {
        first: flat(4),
        second: map(alloc, &[(1, 4), (2, 5)])?,
    };
    assert!(rt; is_same(&all, &want) && nested[1].leq(&all) && !all.leq(&nested[0]));
    Ok(())
}

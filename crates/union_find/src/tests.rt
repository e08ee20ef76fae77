// Sets of seven members, joined by hand.
use crate::{Forest, sets_law};
use std::alloc::Global;
use std::process::Abort;
use std::test::Fail;

fn least_members(rt: &impl Abort, alloc: Global, pairs: &[(u32, u32)]) -> Result<Vec<u32>, Fail> {
    let mut forest = Forest::of(alloc, 7)?;
    for (a, b) in pairs {
        assert!(rt; *a < 7 && *b < 7);
        forest.join(*a, *b);
    }
    Ok(forest.least_members())
}

#[test]
fn least_members_and_sets_apart(rt: HostRuntime) -> Result<(), Fail> {
    let alloc = rt.alloc();
    let mut forest = Forest::over(vec![in alloc; 9, 9, 0, 7, 1]?);
    for _ in 0..2 {
        for member in 0..5 {
            assert_eq!(rt; forest.least(member), member);
        }
        forest.join(4, 3);
        forest.join(1, 2);
        forest.join(2, 4);
        for member in 0..5 {
            assert_eq!(rt; forest.least(member), member.min(1));
        }
        forest.reset();
    }
    assert_eq!(rt;
        forest.least_members().as_slice(),
        [0, 1, 2, 3, 4].as_slice()
    );
    Ok(())
}

#[test]
fn sets_of_seven_members(rt: HostRuntime) -> Result<(), Fail> {
    let alloc = rt.alloc();
    for (pairs, want) in [
        ([].as_slice(), [0, 1, 2, 3, 4, 5, 6]),
        ([(3, 3), (6, 5), (5, 6)].as_slice(), [0, 1, 2, 3, 4, 5, 5]),
        // 6, 4, 2 and 1 by one chain, 5 and 3 by another, which 0 joins last.
        (
            [(6, 4), (2, 1), (4, 2), (5, 3), (0, 5)].as_slice(),
            [0, 1, 1, 0, 1, 0, 1],
        ),
        (
            [(0, 6), (1, 5), (2, 4), (6, 5), (4, 3), (3, 0)].as_slice(),
            [0; 7],
        ),
    ] {
        assert_eq!(rt;
            least_members(&rt, alloc, pairs)?.as_slice(),
            want.as_slice()
        );
    }
    assert!(rt; Forest::of(alloc, 0)?.least_members().is_empty());
    sets_law();
    Ok(())
}

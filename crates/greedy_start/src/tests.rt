// Areas of one, two and three classes, worked by hand.
use crate::orders::is_in_order;
use crate::{StartFault, cheaper_from, hopeless_law, one_each_law, parts_law, start};
use agg_model::{Grouping, Link, Problem, ProblemParts, cost, feasible, numbered, parts};
use std::alloc::Global;
use std::process::Abort;
use std::test::Fail;

const fn link(a: u32, b: u32) -> Link {
    Link { a, b, length: 256 }
}

// Classes at distance 5 from one another and border weight 1.
fn problem(
    rt: &impl Abort,
    alloc: Global,
    areas: &[(u8, i128)],
    links: &[Link],
    thresholds: &[i128],
) -> Result<Problem, Fail> {
    let mut own = Vec::new(alloc);
    let mut weight = Vec::new(alloc);
    for (class, weighs) in areas {
        own.push(*class)?;
        weight.push(*weighs)?;
    }
    let (classes, distance) = match thresholds.len() {
        1 => (1, [0].as_slice()),
        2 => (2, [0, 5, 5, 0].as_slice()),
        // To the third class a change costs nothing.
        _ => (3, [0, 5, 0, 5, 0, 0, 5, 5, 0].as_slice()),
    };
    let parts = ProblemParts {
        classes,
        own,
        weight,
        links: Vec::from_slice(alloc, links)?,
        distance: Vec::from_slice(alloc, distance)?,
        threshold: Vec::from_slice(alloc, thresholds)?,
        border: 1,
    };
    Ok(Problem::of(parts).expect(rt, "a problem"))
}

fn same(grouping: &Grouping, region_of: &[u32], class_of: &[u8]) -> bool {
    grouping.region_of.as_slice() == region_of && grouping.class_of.as_slice() == class_of
}

fn crosses_threads<T: Send + Sync>(_: &T) {}

#[test]
fn areas_without_a_link(rt: HostRuntime) -> Result<(), Fail> {
    let alloc = rt.alloc();
    let apart = problem(&rt, alloc, &[(0, 2), (0, 2)], &[], &[2, 2])?;
    assert_eq!(rt; parts(alloc, &apart)?.as_slice(), [0, 1].as_slice());
    let grouping = start(alloc, &apart)?;
    assert!(rt; same(&grouping, &[0, 1], &[0, 0]));
    assert!(rt; numbered(&apart, &grouping));
    assert_eq!(rt; cost(&apart, &grouping), 0);
    let heavier = problem(&rt, alloc, &[(0, 2), (0, 2)], &[], &[4, 4])?;
    assert_eq!(rt;
        start(alloc, &heavier).err(),
        Some(StartFault::Hopeless { area: 0 })
    );
    let none = problem(&rt, alloc, &[], &[], &[1])?;
    assert!(rt; same(&start(alloc, &none)?, &[], &[]));
    Ok(())
}

#[test]
fn three_areas_in_a_row(rt: HostRuntime) -> Result<(), Fail> {
    let alloc = rt.alloc();
    let links = [link(0, 1), link(1, 2)];
    for (own, thresholds, class, price) in [
        ([0, 1, 0], [4, 4].as_slice(), 0, 10),
        ([0, 1, 0], [6, 6].as_slice(), 0, 10),
        ([0, 1, 0], [7, 6].as_slice(), 1, 20),
        ([1, 1, 0], [4, 4].as_slice(), 1, 10),
        ([0, 1, 0], [4, 4, 4].as_slice(), 0, 10),
        ([0, 2, 0], [4, 4, 4].as_slice(), 2, 0),
    ] {
        let areas = [(own[0], 2), (own[1], 2), (own[2], 2)];
        let row = problem(&rt, alloc, &areas, &links, thresholds)?;
        let grouping = start(alloc, &row)?;
        assert!(rt; same(&grouping, &[0, 0, 0], &[class]));
        assert!(rt; numbered(&row, &grouping));
        assert_eq!(rt; cost(&row, &grouping), price);
    }
    let tie = problem(&rt, alloc, &[(1, 2), (0, 2)], &[link(0, 1)], &[4, 4])?;
    let grouping = start(alloc, &tie)?;
    assert!(rt; numbered(&tie, &grouping));
    assert_eq!(rt; cost(&tie, &grouping), 10);
    let areas = [(0, 2), (1, 2), (0, 2)];
    let hopeless = problem(&rt, alloc, &areas, &links, &[7, 7])?;
    let fault = start(alloc, &hopeless).err();
    assert_eq!(rt; fault, Some(StartFault::Hopeless { area: 0 }));
    crosses_threads(&fault);
    Ok(())
}

#[test]
fn parts_that_interleave(rt: HostRuntime) -> Result<(), Fail> {
    let alloc = rt.alloc();
    let links = [link(0, 5), link(1, 3), link(2, 3)];
    let areas = [(1, 3), (0, 1), (1, 1), (0, 1), (1, 3), (0, 4)];
    let light = problem(&rt, alloc, &areas, &links, &[3, 3])?;
    let grouping = start(alloc, &light)?;
    assert!(rt; same(&grouping, &[0, 1, 1, 1, 2, 0], &[0, 0, 1]));
    let heavier = problem(&rt, alloc, &areas, &links, &[4, 4])?;
    assert_eq!(rt;
        start(alloc, &heavier).err(),
        Some(StartFault::Hopeless { area: 1 })
    );
    let second = problem(&rt, alloc, &areas, &links, &[3, 4])?;
    assert_eq!(rt;
        start(alloc, &second).err(),
        Some(StartFault::Hopeless { area: 4 })
    );
    Ok(())
}

// A tile with speckle: two large patches, side by side, with three single cells of other classes in each.
fn tile(rt: &impl Abort, alloc: Global) -> Result<Problem, Fail> {
    let own = [0, 1, 1, 2, 0, 1, 2, 2];
    let weight = [154, 154, 2, 2, 2, 2, 2, 2];
    let mut links = vec![in alloc;
        Link {
            a: 0,
            b: 1,
            length: 2_048
        },
    ]?;
    for (a, b) in [(0, 2), (0, 5), (0, 7), (1, 3), (1, 4), (1, 6)] {
        links.push(Link {
            a,
            b,
            length: 1_024,
        })?;
    }
    let parts = ProblemParts {
        classes: 3,
        own: Vec::from_slice(alloc, &own)?,
        weight: Vec::from_slice(alloc, &weight)?,
        links,
        distance: vec![in alloc; 0, 300, 600, 300, 0, 700, 600, 700, 0]?,
        threshold: vec![in alloc; 20; 3]?,
        border: 1,
    };
    Ok(Problem::of(parts).expect(rt, "a problem"))
}

#[test]
fn single_cells_join_their_patches(rt: HostRuntime) -> Result<(), Fail> {
    let alloc = rt.alloc();
    let tile = tile(&rt, alloc)?;
    let grouping = start(alloc, &tile)?;
    assert!(rt; same(&grouping, &[0, 1, 0, 1, 1, 0, 1, 0], &[0, 1]));
    assert!(rt; numbered(&tile, &grouping));
    // 600 + 600 + 1,200 on the left, 600 + 1,400 + 1,400 on the right, and 2,048 between them.
    assert_eq!(rt; cost(&tile, &grouping), 7_848);
    Ok(())
}

#[test]
fn order_of_regions(rt: HostRuntime) {
    assert!(rt; is_in_order(&[]));
    assert!(rt; is_in_order(&[0, 1, 0, 2, 1]));
    assert!(rt; !is_in_order(&[1, 0]));
    assert!(rt; !is_in_order(&[0, 2, 1]));
}

#[test]
fn laws() {
    parts_law();
    hopeless_law();
    one_each_law();
}

#[test]
fn better_from_wanted_classes(rt: HostRuntime) -> Result<(), Fail> {
    let alloc = rt.alloc();
    let links = [link(0, 1), link(1, 2)];
    let row = problem(&rt, alloc, &[(0, 2), (1, 2), (0, 2)], &links, &[4, 4])?;
    // One region of class 1 costs 10 for each end, one of class 0 costs 10 for the middle.
    let dear = Grouping {
        region_of: vec![in alloc; 0, 0, 0]?,
        class_of: vec![in alloc; 1]?,
    };
    assert!(rt; numbered(&row, &dear));
    let mut scratch = vec![in alloc; 0; row.areas() as usize]?;
    assert!(rt; feasible(&row, &dear, &mut scratch).is_ok());
    assert_eq!(rt; cost(&row, &dear), 20);
    let wanted = [0u8; 3];
    let Some(found) = cheaper_from(alloc, &row, &dear, wanted.as_slice(), 10)? else {
        return Err(Fail::new("nothing cheaper"));
    };
    assert!(rt; same(&found, &[0, 0, 0], &[0]));
    assert!(rt; cheaper_from(alloc, &row, &found, wanted.as_slice(), 10)?.is_none());
    Ok(())
}

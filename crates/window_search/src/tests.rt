// Small problems whose least costs are worked by hand.
use crate::numbers::Numbers;
use crate::{search, search_near};
use agg_model::{Grouping, Link, Problem, ProblemParts, cost, feasible, numbered};
use std::alloc::Global;
use std::process::Abort;
use std::test::Fail;

const fn link(a: u32, b: u32, length: i128) -> Link {
    Link { a, b, length }
}

// Areas of three classes, with border weight 1.
fn problem(
    rt: &impl Abort,
    alloc: Global,
    areas: &[(u8, i128)],
    links: &[Link],
    threshold: i128,
) -> Result<Problem, Fail> {
    let mut own = Vec::new(alloc);
    let mut weight = Vec::new(alloc);
    for (class, weighs) in areas {
        own.push(*class)?;
        weight.push(*weighs)?;
    }
    let parts = ProblemParts {
        classes: 3,
        own,
        weight,
        links: Vec::from_slice(alloc, links)?,
        distance: vec![in alloc; 0, 300, 600, 300, 0, 700, 600, 700, 0]?,
        threshold: vec![in alloc; threshold; 3]?,
        border: 1,
    };
    Ok(Problem::of(parts).expect(rt, "a problem"))
}

fn grouping(alloc: Global, region_of: &[u32], class_of: &[u8]) -> Result<Grouping, Fail> {
    Ok(Grouping {
        region_of: Vec::from_slice(alloc, region_of)?,
        class_of: Vec::from_slice(alloc, class_of)?,
    })
}

// Two large patches, side by side, with three single cells of other classes in each.
fn tile(rt: &impl Abort, alloc: Global) -> Result<Problem, Fail> {
    problem(
        rt,
        alloc,
        &[
            (0, 154),
            (1, 154),
            (1, 2),
            (2, 2),
            (0, 2),
            (1, 2),
            (2, 2),
            (2, 2),
        ],
        &[
            link(0, 1, 2_048),
            link(0, 2, 1_024),
            link(0, 5, 1_024),
            link(0, 7, 1_024),
            link(1, 3, 1_024),
            link(1, 4, 1_024),
            link(1, 6, 1_024),
        ],
        20,
    )
}

#[test]
fn single_cells_join_their_patches(rt: HostRuntime) -> Result<(), Fail> {
    let alloc = rt.alloc();
    let tile = tile(&rt, alloc)?;
    let whole = grouping(alloc, &[0; 8], &[0])?;
    assert!(rt; numbered(&tile, &whole));
    for turns in [0, 100] {
        let found = search(alloc, &tile, &whole, turns)?;
        // 600 + 600 + 1,200 on the left, 600 + 1,400 + 1,400 on the right, and 2,048 between them.
        assert_eq!(rt; cost(&tile, &found), 7_848);
        assert_eq!(rt;
            found.region_of.as_slice(),
            [0, 1, 0, 1, 1, 0, 1, 0].as_slice()
        );
        assert_eq!(rt; found.class_of.as_slice(), [0, 1].as_slice());
        let mut scratch = vec![in alloc; 0; tile.areas() as usize]?;
        assert!(rt; feasible(&tile, &found, &mut scratch).is_ok());
    }
    Ok(())
}

#[test]
fn wanted_classes_are_made_feasible(rt: HostRuntime) -> Result<(), Fail> {
    let alloc = rt.alloc();
    let tile = tile(&rt, alloc)?;
    let whole = grouping(alloc, &[0; 8], &[0])?;
    assert!(rt; numbered(&tile, &whole));
    // The own classes; all of the third class, which is feasible too, but dearer; no classes; and numbers that are no classes.
    let own = [0u8, 1, 1, 2, 0, 1, 2, 2];
    let third = [2u8; 8];
    let none: [u8; 0] = [];
    let wrong = [9u8; 8];
    for wanted in [
        own.as_slice(),
        third.as_slice(),
        none.as_slice(),
        wrong.as_slice(),
    ] {
        let found = search_near(alloc, &tile, &whole, wanted, 100)?;
        assert!(rt; numbered(&tile, &found));
        assert!(rt; cost(&tile, &found) <= cost(&tile, &whole));
        let mut scratch = vec![in alloc; 0; tile.areas() as usize]?;
        assert!(rt; feasible(&tile, &found, &mut scratch).is_ok());
    }
    let found = search_near(alloc, &tile, &whole, own.as_slice(), 100)?;
    assert_eq!(rt; cost(&tile, &found), 7_848);
    Ok(())
}

#[test]
fn given_grouping_where_none_is_feasible(rt: HostRuntime) -> Result<(), Fail> {
    let alloc = rt.alloc();
    let apart = problem(&rt, alloc, &[(0, 2), (1, 2)], &[], 4)?;
    let given = grouping(alloc, &[1, 0], &[2, 0])?;
    assert!(rt; numbered(&apart, &given));
    let found = search(alloc, &apart, &given, 100)?;
    assert_eq!(rt; found.region_of.as_slice(), [1, 0].as_slice());
    assert_eq!(rt; found.class_of.as_slice(), [2, 0].as_slice());
    let none = problem(&rt, alloc, &[], &[], 4)?;
    let empty = grouping(alloc, &[], &[])?;
    assert!(rt; numbered(&none, &empty));
    assert!(rt; search(alloc, &none, &empty, 100)?.region_of.is_empty());
    Ok(())
}

#[test]
fn numbers_drawn(rt: HostRuntime) {
    let mut numbers = Numbers::of(1);
    for want in [16_838, 5_758, 10_113, 17_515, 31_051, 5_627] {
        assert_eq!(rt; numbers.below(65_536), want);
    }
    assert_eq!(rt; numbers.below(0), 0);
}

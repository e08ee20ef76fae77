// Searches whose answers were worked out by hand, over links of a border of one or more sides of 256 each.
use crate::{Kind, Outcome, solve};
use agg_model::{Grouping, Link, Problem, ProblemParts};
use bound_rows::{Leaf, Plain, Tree, depth, splits};
use std::alloc::Global;
use std::process::Abort;
use std::test::Fail;

fn link(a: u32, b: u32, sides: i128) -> Link {
    Link {
        a,
        b,
        length: sides.wrapping_mul(256),
    }
}

// Three areas in a row, of own classes 0, 1 and 0 and weights of 2. Two classes at distance 5, border weight 1.
fn row(rt: &impl Abort, alloc: Global, threshold: i128) -> Result<Problem, Fail> {
    let parts = ProblemParts {
        classes: 2,
        own: vec![in alloc; 0, 1, 0]?,
        weight: vec![in alloc; 2, 2, 2]?,
        links: vec![in alloc; link(0, 1, 1), link(1, 2, 1)]?,
        distance: vec![in alloc; 0, 5, 5, 0]?,
        threshold: vec![in alloc; threshold, threshold]?,
        border: 1,
    };
    Ok(Problem::of(parts).expect(rt, "a problem"))
}

// Two large patches with three single cells in each.
fn speckled(rt: &impl Abort, alloc: Global) -> Result<Problem, Fail> {
    let parts = ProblemParts {
        classes: 3,
        own: vec![in alloc; 0, 1, 1, 2, 0, 1, 2, 2]?,
        weight: vec![in alloc; 154, 154, 2, 2, 2, 2, 2, 2]?,
        links: vec![in alloc;
            link(0, 1, 8),
            link(0, 2, 4),
            link(0, 5, 4),
            link(0, 7, 4),
            link(1, 3, 4),
            link(1, 4, 4),
            link(1, 6, 4),
        ]?,
        distance: vec![in alloc; 0, 300, 600, 300, 0, 700, 600, 700, 0]?,
        threshold: vec![in alloc; 20, 20, 20]?,
        border: 1,
    };
    Ok(Problem::of(parts).expect(rt, "a problem"))
}

fn same(grouping: &Grouping, region_of: &[u32], class_of: &[u8]) -> bool {
    grouping.region_of.as_slice() == region_of && grouping.class_of.as_slice() == class_of
}

fn crosses_threads<T: Send + Sync>(_: &T) {}

#[test]
fn without_splits(rt: HostRuntime) -> Result<(), Fail> {
    let alloc = rt.alloc();
    let problem = row(&rt, alloc, 4)?;
    let outcome = solve(alloc, &problem, &mut Plain::new(), 0)?;
    crosses_threads(&outcome);
    let Outcome { tree, kind } = outcome;
    assert!(rt; matches!(tree, Tree::Leaf(Leaf::Sum(_))));
    let Kind::Within {
        cost,
        bound,
        deep,
        ..
    } = kind
    else {
        return Err(Fail::new("not within"));
    };
    assert!(rt; cost == 10 || cost == 20);
    assert_eq!(rt; (bound, deep), (0, false));
    Ok(())
}

#[test]
fn with_enough_splits(rt: HostRuntime) -> Result<(), Fail> {
    let alloc = rt.alloc();
    let problem = row(&rt, alloc, 4)?;
    let Outcome { tree, kind } = solve(alloc, &problem, &mut Plain::new(), 7)?;
    assert!(rt; splits(&tree) <= 7 && depth(&tree) <= 3);
    let Kind::Optimal { best, cost } = kind else {
        return Err(Fail::new("not optimal"));
    };
    assert_eq!(rt; cost, 10);
    assert!(rt; same(&best, &[0, 0, 0], &[0]));
    Ok(())
}

#[test]
fn nothing_to_find(rt: HostRuntime) -> Result<(), Fail> {
    let alloc = rt.alloc();
    let problem = row(&rt, alloc, 7)?;
    let Outcome { tree, kind } = solve(alloc, &problem, &mut Plain::new(), 7)?;
    assert!(rt; matches!(kind, Kind::NoGrouping));
    let Tree::Leaf(Leaf::Sum(sum)) = tree else {
        return Err(Fail::new("not a sum"));
    };
    assert!(rt; sum.void);
    assert_eq!(rt; sum.rows.len(), 2);
    Ok(())
}

#[test]
fn patches_with_speckle(rt: HostRuntime) -> Result<(), Fail> {
    let alloc = rt.alloc();
    let problem = speckled(&rt, alloc)?;
    let Outcome { tree, kind } = solve(alloc, &problem, &mut Plain::new(), 10_000)?;
    assert!(rt; splits(&tree) <= 6_560);
    let Kind::Optimal { best, cost } = kind else {
        return Err(Fail::new("not optimal"));
    };
    assert_eq!(rt; cost, 7_848);
    assert!(rt; same(&best, &[0, 1, 0, 1, 1, 0, 1, 0], &[0, 1]));
    Ok(())
}

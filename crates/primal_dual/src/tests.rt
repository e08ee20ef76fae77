// Small problems whose least costs are worked by hand.
use crate::PrimalDual;
use agg_model::{Link, Problem, ProblemParts};
use bound_rows::{Bound, BoundProvider, Domains, LeafProof, Scratch};
use std::alloc::Global;
use std::process::Abort;
use std::test::Fail;

const fn link(a: u32, b: u32, length: i128) -> Link {
    Link { a, b, length }
}

// Three cells of the classes 0, 1, 0 in a row: one region of class 0 costs 10.
fn row(rt: &impl Abort, alloc: Global) -> Result<Problem, Fail> {
    let parts = ProblemParts {
        classes: 2,
        own: vec![in alloc; 0, 1, 0]?,
        weight: vec![in alloc; 2, 2, 2]?,
        links: vec![in alloc; link(0, 1, 256), link(1, 2, 256)]?,
        distance: vec![in alloc; 0, 5, 5, 0]?,
        threshold: vec![in alloc; 4, 4]?,
        border: 1,
    };
    Ok(Problem::of(parts).expect(rt, "a problem"))
}

// Two such rows that no link joins. In the second one each cell weighs 3, and one region of class 0 costs 15.
fn two_rows(rt: &impl Abort, alloc: Global) -> Result<Problem, Fail> {
    let parts = ProblemParts {
        classes: 2,
        own: vec![in alloc; 0, 1, 0, 0, 1, 0]?,
        weight: vec![in alloc; 2, 2, 2, 3, 3, 3]?,
        links: vec![in alloc;
            link(0, 1, 256),
            link(1, 2, 256),
            link(3, 4, 256),
            link(4, 5, 256),
        ]?,
        distance: vec![in alloc; 0, 5, 5, 0]?,
        threshold: vec![in alloc; 4, 4]?,
        border: 1,
    };
    Ok(Problem::of(parts).expect(rt, "a problem"))
}

#[test]
fn keeps_the_row_that_gains_most(rt: HostRuntime) -> Result<(), Fail> {
    let alloc = rt.alloc();
    let problem = two_rows(&rt, alloc)?;
    let domains = Domains::whole(alloc, &problem)?;
    let mut provider = PrimalDual::new();
    assert!(rt; provider.hint(&problem, &domains).is_none());
    for _ in 0..2 {
        let sum = provider.offer(alloc, &problem, &domains, 25, 9)?;
        let mut scratch = Scratch::new(alloc, &problem)?;
        assert!(rt; sum.sound(&problem, &domains).is_ok());
        let value = sum
            .value(&problem, &domains, &mut scratch)
            .ok()
            .expect(&rt, "a value");
        assert_eq!(rt; value, Bound::Least(15));
    }
    Ok(())
}

#[test]
fn offers_what_the_best_grouping_costs(rt: HostRuntime) -> Result<(), Fail> {
    let alloc = rt.alloc();
    let problem = row(&rt, alloc)?;
    let domains = Domains::whole(alloc, &problem)?;
    let mut provider = PrimalDual::new();
    let sum = provider.offer(alloc, &problem, &domains, 1_000_000, 1_000)?;
    let mut scratch = Scratch::new(alloc, &problem)?;
    assert!(rt; sum.sound(&problem, &domains).is_ok());
    let value = sum
        .value(&problem, &domains, &mut scratch)
        .ok()
        .expect(&rt, "a value");
    assert_eq!(rt; value, Bound::Least(10));
    Ok(())
}

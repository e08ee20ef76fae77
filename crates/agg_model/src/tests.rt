// Three areas in a row, worked by hand.
use crate::{Grouping, Link, Problem, ProblemParts, cost, cost_law, numbered, parts};
use std::alloc::Global;
use std::test::Fail;

const fn link(a: u32, b: u32, length: i128) -> Link {
    Link { a, b, length }
}

// Own classes 0, 1 and 0, weights of 2, links of length 256, two classes at distance 5, thresholds of 4, border weight 1.
fn row(alloc: Global) -> Result<ProblemParts, Fail> {
    Ok(ProblemParts {
        classes: 2,
        own: vec![in alloc; 0, 1, 0]?,
        weight: vec![in alloc; 2, 2, 2]?,
        links: vec![in alloc; link(0, 1, 256), link(1, 2, 256)]?,
        distance: vec![in alloc; 0, 5, 5, 0]?,
        threshold: vec![in alloc; 4, 4]?,
        border: 1,
    })
}

fn is_problem(parts: ProblemParts) -> bool {
    Problem::of(parts).is_some()
}

fn crosses_threads<T: Send + Sync>(_: &T) {}

#[test]
fn accessors_and_copies(rt: HostRuntime) -> Result<(), Fail> {
    let alloc = rt.alloc();
    let first = Problem::of(row(alloc)?).expect(&rt, "a problem");
    let problem = first.copy(alloc)?;
    assert_eq!(rt; problem.areas(), 3);
    assert_eq!(rt; problem.classes(), 2);
    assert_eq!(rt;
        problem.links(),
        [link(0, 1, 256), link(1, 2, 256)].as_slice()
    );
    assert_eq!(rt; problem.border(), 1);
    crosses_threads(&problem);
    crosses_threads(&link(0, 1, 256));
    Ok(())
}

#[test]
fn costs(rt: HostRuntime) -> Result<(), Fail> {
    let alloc = rt.alloc();
    let problem = Problem::of(row(alloc)?).expect(&rt, "a problem");
    for (region_of, class_of, want) in [
        ([0, 0, 0], [0].as_slice(), 10),
        ([0, 0, 0], [1].as_slice(), 20),
        ([0, 0, 1], [0, 0].as_slice(), 266),
        ([0, 1, 2], [0, 1, 0].as_slice(), 512),
    ] {
        let first = Grouping {
            region_of: Vec::from_slice(alloc, &region_of)?,
            class_of: Vec::from_slice(alloc, class_of)?,
        };
        let grouping = first.copy(alloc)?;
        assert!(rt; numbered(&problem, &grouping));
        assert_eq!(rt; cost(&problem, &grouping), want);
        crosses_threads(&grouping);
    }
    cost_law();
    Ok(())
}

#[test]
fn costs_of_distances_that_differ_by_direction(rt: HostRuntime) -> Result<(), Fail> {
    let alloc = rt.alloc();
    let mut parts = row(alloc)?;
    parts.distance = vec![in alloc; 0, 7, 8, 0]?;
    let problem = Problem::of(parts).expect(&rt, "a problem");
    // One area of weight 2 goes from class 1 to 0, or two such areas from class 0 to 1.
    for (class, want) in [(0, 16), (1, 28)] {
        let grouping = Grouping {
            region_of: vec![in alloc; 0; 3]?,
            class_of: vec![in alloc; class]?,
        };
        assert!(rt; numbered(&problem, &grouping));
        assert_eq!(rt; cost(&problem, &grouping), want);
    }
    Ok(())
}

#[test]
fn numbers_of_groupings(rt: HostRuntime) -> Result<(), Fail> {
    let alloc = rt.alloc();
    let problem = Problem::of(row(alloc)?).expect(&rt, "a problem");
    for (region_of, class_of, want) in [
        ([0, 0, 1].as_slice(), [0, 1].as_slice(), true),
        ([0, 0].as_slice(), [0, 1].as_slice(), false),
        ([0, 0, 1, 1].as_slice(), [0, 1].as_slice(), false),
        ([0, 0, 2].as_slice(), [0, 1].as_slice(), false),
        ([0, 0, 1].as_slice(), [0, 2].as_slice(), false),
        ([0, 0, 0].as_slice(), [0, 2].as_slice(), false),
        ([0, 0, 0].as_slice(), [].as_slice(), false),
    ] {
        let grouping = Grouping {
            region_of: Vec::from_slice(alloc, region_of)?,
            class_of: Vec::from_slice(alloc, class_of)?,
        };
        assert_eq!(rt; numbered(&problem, &grouping), want);
    }
    Ok(())
}

#[test]
fn rules_of_classes_and_areas(rt: HostRuntime) -> Result<(), Fail> {
    let alloc = rt.alloc();
    for (classes, pairs, want) in [
        (0, 0, false),
        (1, 1, true),
        (64, 4_096, true),
        (65, 4_225, false),
        (2, 3, false),
    ] {
        let parts = ProblemParts {
            classes,
            own: Vec::new(alloc),
            weight: Vec::new(alloc),
            links: Vec::new(alloc),
            distance: vec![in alloc; 0; pairs]?,
            threshold: vec![in alloc; 0; usize::from(classes)]?,
            border: 0,
        };
        assert_eq!(rt; is_problem(parts), want, "{classes} classes");
    }
    for (own, weight, want) in [
        (1, 1, true),
        (2, 1, false),
        (0, 0, false),
        (0, -1, false),
        // 2 + 2 + 512 more make 2^110 / 10,000, rounded down.
        (0, 129_807_421_463_370_690_713_262_407_714, true),
        (0, 129_807_421_463_370_690_713_262_407_715, false),
        (0, i128::MAX, false),
    ] {
        let mut parts = row(alloc)?;
        parts.own = vec![in alloc; 0, 1, own]?;
        parts.weight = vec![in alloc; weight, 2, 2]?;
        assert_eq!(rt; is_problem(parts), want, "own class {own}, weight {weight}");
    }
    let mut parts = row(alloc)?;
    parts.weight = vec![in alloc; 2, 2]?;
    assert!(rt; !is_problem(parts));
    Ok(())
}

#[test]
fn rules_of_links(rt: HostRuntime) -> Result<(), Fail> {
    let alloc = rt.alloc();
    for (one, other, want) in [
        (link(0, 1, 0), link(0, 2, 256), true),
        (link(1, 0, 256), link(1, 2, 256), false),
        (link(0, 0, 256), link(1, 2, 256), false),
        (link(0, 1, 256), link(1, 3, 256), false),
        (link(1, 2, 256), link(0, 1, 256), false),
        (link(0, 2, 256), link(0, 1, 256), false),
        (link(0, 1, 256), link(0, 1, 256), false),
        (link(0, 1, -1), link(1, 2, 256), false),
        (link(0, 1, i128::MAX), link(1, 2, i128::MAX), false),
    ] {
        let mut parts = row(alloc)?;
        parts.links = vec![in alloc; one, other]?;
        assert_eq!(rt; is_problem(parts), want, "{one:?} and {other:?}");
    }
    Ok(())
}

#[test]
fn rules_of_numbers(rt: HostRuntime) -> Result<(), Fail> {
    let alloc = rt.alloc();
    for (distance, itself, border, want) in [
        (10_000, 0, 10_000, true),
        (10_001, 0, 1, false),
        (5, 1, 1, false),
        (5, 0, 10_001, false),
    ] {
        let mut parts = row(alloc)?;
        parts.distance = vec![in alloc; 0, 5, distance, itself]?;
        parts.border = border;
        assert_eq!(rt; is_problem(parts), want, "{distance}, {itself}, {border}");
    }
    for (threshold, want) in [
        (0, true),
        (-1, false),
        (1_000_000_000_000_000_000_000_000_000_000, true),
        (1_000_000_000_000_000_000_000_000_000_001, false),
    ] {
        let mut parts = row(alloc)?;
        parts.threshold = vec![in alloc; 4, threshold]?;
        assert_eq!(rt; is_problem(parts), want, "threshold {threshold}");
    }
    let mut parts = row(alloc)?;
    parts.threshold = vec![in alloc; 4]?;
    assert!(rt; !is_problem(parts));
    Ok(())
}

#[test]
fn parts_of_problems(rt: HostRuntime) -> Result<(), Fail> {
    let alloc = rt.alloc();
    let problem = Problem::of(row(alloc)?).expect(&rt, "a problem");
    assert_eq!(rt; parts(alloc, &problem)?.as_slice(), [0, 0, 0].as_slice());
    for (links, want) in [
        ([].as_slice(), [0, 1, 2, 3, 4, 5]),
        (
            [link(0, 5, 1), link(1, 3, 0), link(2, 3, 1)].as_slice(),
            [0, 1, 1, 1, 4, 0],
        ),
        (
            [link(0, 1, 1), link(2, 5, 1), link(3, 4, 1), link(4, 5, 1)].as_slice(),
            [0, 0, 2, 2, 2, 2],
        ),
    ] {
        let six = ProblemParts {
            classes: 1,
            own: vec![in alloc; 0; 6]?,
            weight: vec![in alloc; 1; 6]?,
            links: Vec::from_slice(alloc, links)?,
            distance: vec![in alloc; 0]?,
            threshold: vec![in alloc; 0]?,
            border: 1,
        };
        let problem = Problem::of(six).expect(&rt, "a problem");
        assert_eq!(rt; parts(alloc, &problem)?.as_slice(), want.as_slice());
    }
    Ok(())
}

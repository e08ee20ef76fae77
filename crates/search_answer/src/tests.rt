// Answers that were worked out by hand.
use crate::search_answer;
use agg_model::{Link, Problem, ProblemParts};
use bound_rows::{Leaf, Row, Tree, depth, splits};
use cert_text::{CertStatus, Certificate};
use std::alloc::Global;
use std::process::Abort;
use std::test::Fail;

fn link(a: u32, b: u32, sides: i128) -> Link {
    Link {
        a,
        b,
        length: sides.wrapping_mul(256),
    }
}

// Three cells in a row, of own classes 0, 1 and 0. Two classes at distance 5, border weight 1.
fn row(rt: &impl Abort, alloc: Global) -> Result<Problem, Fail> {
    let parts = ProblemParts {
        classes: 2,
        own: vec![in alloc; 0, 1, 0]?,
        weight: vec![in alloc; 2, 2, 2]?,
        links: vec![in alloc; link(0, 1, 1), link(1, 2, 1)]?,
        distance: vec![in alloc; 0, 5, 5, 0]?,
        threshold: vec![in alloc; 4, 4]?,
        border: 1,
    };
    Ok(Problem::of(parts).expect(rt, "a problem"))
}

// One cell of the one class, which wants two.
fn lone_cell(rt: &impl Abort, alloc: Global) -> Result<Problem, Fail> {
    let parts = ProblemParts {
        classes: 1,
        own: vec![in alloc; 0]?,
        weight: vec![in alloc; 2]?,
        links: Vec::new(alloc),
        distance: vec![in alloc; 0]?,
        threshold: vec![in alloc; 4]?,
        border: 0,
    };
    Ok(Problem::of(parts).expect(rt, "a problem"))
}

// Two patches of 77 cells with three single cells in each.
fn speckled(rt: &impl Abort, alloc: Global) -> Result<Problem, Fail> {
    let parts = ProblemParts {
        classes: 3,
        own: vec![in alloc; 0, 1, 1, 2, 0, 1, 2, 2]?,
        weight: vec![in alloc; 154, 154, 2, 2, 2, 2, 2, 2]?,
        links: vec![in alloc;
            link(0, 1, 8),
            link(0, 2, 4),
            link(0, 5, 4),
            link(0, 7, 4),
            link(1, 3, 4),
            link(1, 4, 4),
            link(1, 6, 4),
        ]?,
        distance: vec![in alloc; 0, 300, 600, 300, 0, 700, 600, 700, 0]?,
        threshold: vec![in alloc; 20, 20, 20]?,
        border: 1,
    };
    Ok(Problem::of(parts).expect(rt, "a problem"))
}

// The regions, the classes, and the cost where it is the bound too.
fn is_optimal(certificate: &Certificate, region_of: &[u32], class_of: &[u8], cost: i128) -> bool {
    certificate.status == CertStatus::Optimal
        && certificate.grouping.region_of.as_slice() == region_of
        && certificate.grouping.class_of.as_slice() == class_of
        && certificate.cost == Some(cost)
        && certificate.bound == Some(cost)
}

#[test]
fn one_region_is_optimal(rt: HostRuntime) -> Result<(), Fail> {
    let alloc = rt.alloc();
    let problem = row(&rt, alloc)?;
    let certificate = search_answer(alloc, &problem, 7)?;
    assert_eq!(rt; certificate.areas, 3);
    assert!(rt; is_optimal(&certificate, &[0, 0, 0], &[0], 10));
    assert!(rt; splits(&certificate.tree) <= 7 && depth(&certificate.tree) <= 3);
    Ok(())
}

#[test]
fn speckle_is_recoloured(rt: HostRuntime) -> Result<(), Fail> {
    let alloc = rt.alloc();
    let problem = speckled(&rt, alloc)?;
    let certificate = search_answer(alloc, &problem, 100)?;
    assert_eq!(rt; certificate.areas, 8);
    assert!(rt; is_optimal(&certificate, &[0, 1, 0, 1, 1, 0, 1, 0], &[0, 1], 7_848));
    assert!(rt; splits(&certificate.tree) <= 100);
    Ok(())
}

#[test]
fn a_lone_cell_is_hopeless(rt: HostRuntime) -> Result<(), Fail> {
    let alloc = rt.alloc();
    let problem = lone_cell(&rt, alloc)?;
    let certificate = search_answer(alloc, &problem, 7)?;
    assert_eq!(rt; certificate.status, CertStatus::Hopeless);
    assert_eq!(rt;
        (certificate.areas, certificate.cost, certificate.bound),
        (1, None, None)
    );
    assert!(rt; certificate.grouping.region_of.is_empty());
    assert!(rt; certificate.grouping.class_of.is_empty());
    let Certificate { tree, .. } = certificate;
    let Tree::Leaf(Leaf::Sum(sum)) = tree else {
        return Err(Fail::new("not a sum"));
    };
    assert!(rt; sum.void);
    assert_eq!(rt; sum.rows.len(), 1);
    let (Row::Escape { area, class, .. }, multiplier) = &sum.rows[0] else {
        return Err(Fail::new("not an escape row"));
    };
    assert_eq!(rt; (*area, *class, *multiplier), (0, 0, 1));
    Ok(())
}

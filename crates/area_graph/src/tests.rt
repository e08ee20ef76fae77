use super::{GraphFault, problem_of};
use agg_base::Text;
use agg_model::{Link, Problem};
use class_table::{Table, read};
use coverage_check::{Checked, check};
use crew_work::Alone;
use plane_edge::{Area, Coverage, Frame, Point};
use std::alloc::Global;
use std::process::Abort;
use std::test::Fail;

type Ring<'a> = &'a [[i64; 2]];

// The ring of some corners.
fn ring(rt: &impl Abort, alloc: Global, corners: Ring<'_>) -> Result<Vec<Point>, Fail> {
    let mut ring = Vec::new(alloc);
    for [x, y] in corners {
        ring.push(Point::of(*x, *y).expect(rt, "a coordinate past the limit"))?;
    }
    Ok(ring)
}

// The area of some rings.
fn area(rt: &impl Abort, alloc: Global, class: &str, outlines: &[Ring<'_>]) -> Result<Area, Fail> {
    let mut rings = Vec::new(alloc);
    for corners in outlines {
        rings.push(ring(rt, alloc, corners)?)?;
    }
    Ok(Area::of_rings(alloc, Text::of(alloc, class)?, &rings)?)
}

// The checked map of some areas.
fn checked(rt: &impl Abort, alloc: Global, areas: Vec<Area>) -> Result<Checked, Fail> {
    let coverage = Coverage::of(areas, 0, Frame::Plain).expect(rt, "too many areas or steps");
    match check(alloc, coverage, &Alone) {
        Ok(checked) => Ok(checked),
        Err(_) => Err(Fail::new("a fault of the coverage")),
    }
}

// The table of a text.
fn table(rt: &impl Abort, alloc: Global, text: &[u8]) -> Result<Table, Fail> {
    assert!(rt; text.len() <= 1_000_000);
    match read(alloc, text) {
        Ok(table) => Ok(table),
        Err(_) => Err(Fail::new("a fault of the table")),
    }
}

const PLAIN: &[u8] = b"classes 1\nborder 3\nclass 4 wood\nclass 5 lake\nrow 0 7\nrow 8 0\n";

const STRETCHED: &[u8] =
    b"classes 1\nunit 2 3\nborder 3\nclass 4 wood\nclass 5 lake\nrow 0 7\nrow 8 0\n";

// What is answered to some areas and a table.
fn answer(
    rt: &impl Abort,
    alloc: Global,
    areas: Vec<Area>,
    text: &[u8],
) -> Result<Result<Problem, GraphFault>, Fail> {
    let map = checked(rt, alloc, areas)?;
    let table = table(rt, alloc, text)?;
    Ok(problem_of(alloc, &map, &table))
}

// The problem of some areas and a table.
fn problem(rt: &impl Abort, alloc: Global, areas: Vec<Area>, text: &[u8]) -> Result<Problem, Fail> {
    Ok(answer(rt, alloc, areas, text)?.expect(rt, "a fault"))
}

// The weight of an area.
fn weight(rt: &impl Abort, problem: &Problem, area: u32) -> i128 {
    assert!(rt; area < problem.areas());
    problem.weight(area)
}

// The only link.
fn only_link(rt: &impl Abort, problem: &Problem) -> Link {
    let links = problem.links();
    assert_eq!(rt; links.len(), 1);
    links[0]
}

// Two unit squares side by side, the left one a lake.
fn two_squares(rt: &impl Abort, alloc: Global, text: &[u8]) -> Result<Problem, Fail> {
    let mut areas = Vec::new(alloc);
    areas.push(area(rt, alloc, "lake", &[&[[0, 0], [1, 0], [1, 1], [0, 1]]])?)?;
    areas.push(area(rt, alloc, "wood", &[&[[1, 0], [2, 0], [2, 1], [1, 1]]])?)?;
    problem(rt, alloc, areas, text)
}

#[test]
fn squares_side_by_side_are_linked(rt: HostRuntime) -> Result<(), Fail> {
    let problem = two_squares(&rt, rt.alloc(), PLAIN)?;
    assert_eq!(rt; problem.areas(), 2);
    assert_eq!(rt; weight(&rt, &problem, 0), 2);
    assert_eq!(rt;
        only_link(&rt, &problem),
        Link {
            a: 0,
            b: 1,
            length: 256
        }
    );
    Ok(())
}

#[test]
fn the_table_is_taken_over(rt: HostRuntime) -> Result<(), Fail> {
    let problem = two_squares(&rt, rt.alloc(), PLAIN)?;
    assert_eq!(rt; problem.areas(), 2);
    assert_eq!(rt; problem.own(0), 1);
    assert_eq!(rt; problem.classes(), 2);
    assert_eq!(rt; problem.distance(1, 0), 8);
    assert_eq!(rt; problem.threshold(1), 5);
    assert_eq!(rt; problem.border(), 3);
    Ok(())
}

#[test]
fn the_factors_of_the_axes_count(rt: HostRuntime) -> Result<(), Fail> {
    let problem = two_squares(&rt, rt.alloc(), STRETCHED)?;
    assert_eq!(rt; weight(&rt, &problem, 0), 12);
    assert_eq!(rt; only_link(&rt, &problem).length, 768);
    Ok(())
}

#[test]
fn a_hole_and_what_fills_it(rt: HostRuntime) -> Result<(), Fail> {
    let alloc = rt.alloc();
    let shell: Ring<'_> = &[[0, 0], [6, 0], [6, 6], [0, 6]];
    let hole: Ring<'_> = &[[2, 2], [4, 2], [4, 4], [2, 4]];
    let mut areas = Vec::new(alloc);
    areas.push(area(&rt, alloc, "wood", &[shell, hole])?)?;
    areas.push(area(&rt, alloc, "lake", &[hole])?)?;
    let problem = problem(&rt, alloc, areas, PLAIN)?;
    assert_eq!(rt; weight(&rt, &problem, 0), 64);
    assert_eq!(rt; weight(&rt, &problem, 1), 8);
    assert_eq!(rt; only_link(&rt, &problem).length, 2048);
    Ok(())
}

#[test]
fn a_slanted_border_and_a_corner(rt: HostRuntime) -> Result<(), Fail> {
    let alloc = rt.alloc();
    let mut areas = Vec::new(alloc);
    areas.push(area(&rt, alloc, "wood", &[&[[0, 0], [1, 0], [1, 1]]])?)?;
    areas.push(area(&rt, alloc, "wood", &[&[[0, 0], [1, 1], [0, 1]]])?)?;
    areas.push(area(&rt, alloc, "lake", &[&[[1, 1], [2, 1], [2, 2], [1, 2]]])?)?;
    let problem = problem(&rt, alloc, areas, PLAIN)?;
    assert_eq!(rt; weight(&rt, &problem, 0), 1);
    assert_eq!(rt;
        only_link(&rt, &problem),
        Link {
            a: 0,
            b: 1,
            length: 362
        }
    );
    Ok(())
}

#[test]
fn the_least_unknown_class_is_named(rt: HostRuntime) -> Result<(), Fail> {
    let alloc = rt.alloc();
    let mut areas = Vec::new(alloc);
    areas.push(area(&rt, alloc, "wood", &[&[[0, 0], [1, 0], [1, 1], [0, 1]]])?)?;
    areas.push(area(&rt, alloc, "fen", &[&[[1, 0], [2, 0], [2, 1], [1, 1]]])?)?;
    areas.push(area(&rt, alloc, "moor", &[&[[2, 0], [3, 0], [3, 1], [2, 1]]])?)?;
    let fault = answer(&rt, alloc, areas, PLAIN)?.err();
    assert_eq!(rt; fault, Some(GraphFault::UnknownClass { area: 1 }));
    Ok(())
}

#[test]
fn an_edge_that_occurs_twice_makes_no_link(rt: HostRuntime) -> Result<(), Fail> {
    let alloc = rt.alloc();
    let spiked: Ring<'_> = &[[0, 0], [2, 0], [2, 2], [2, 3], [2, 2], [0, 2]];
    let mut areas = Vec::new(alloc);
    areas.push(area(&rt, alloc, "wood", &[spiked])?)?;
    areas.push(area(&rt, alloc, "lake", &[&[[2, 2], [3, 2], [3, 3], [2, 3]]])?)?;
    let problem = problem(&rt, alloc, areas, PLAIN)?;
    assert_eq!(rt; problem.areas(), 2);
    assert_eq!(rt; weight(&rt, &problem, 0), 8);
    assert_eq!(rt; problem.links().len(), 0);
    Ok(())
}

#[test]
fn areas_without_an_odd_edge_are_passed_over(rt: HostRuntime) -> Result<(), Fail> {
    let alloc = rt.alloc();
    let mut areas = Vec::new(alloc);
    areas.push(area(&rt, alloc, "fen", &[&[[0, 0], [3, 0]]])?)?;
    areas.push(area(&rt, alloc, "wood", &[&[[0, 0], [1, 0], [1, 1], [0, 1]]])?)?;
    areas.push(area(&rt, alloc, "moor", &[&[[1, 0], [2, 0], [2, 1], [1, 1]]])?)?;
    let fault = answer(&rt, alloc, areas, PLAIN)?.err();
    assert_eq!(rt; fault, Some(GraphFault::UnknownClass { area: 1 }));
    Ok(())
}

// Takes what another thread may hold.
fn is_shared<T: Send + Sync>(value: &T) {
    let _ = value;
}

#[test]
fn a_fault_is_shared(rt: HostRuntime) {
    let _ = rt;
    is_shared(&GraphFault::Memory);
}

use super::{Checked, CoverFault, check, odd_law, one_fault_law};
use agg_base::{NoMemory, Text};
use crew_work::Alone;
use plane_edge::{Area, Coverage, Edge, Frame, Point, Spot};
use std::alloc::Global;
use std::process::Abort;
use std::test::Fail;

// A point within the limit.
fn point(rt: &impl Abort, [x, y]: [i64; 2]) -> Point {
    Point::of(x, y).expect(rt, "a coordinate past the limit")
}

// The edge between two points.
fn edge(rt: &impl Abort, a: [i64; 2], b: [i64; 2]) -> Edge {
    Edge::of(point(rt, a), point(rt, b)).expect(rt, "equal ends")
}

// The area of one ring, with the class `1`.
fn area(rt: &impl Abort, alloc: Global, corners: &[[i64; 2]]) -> Result<Area, Fail> {
    let mut ring = Vec::new(alloc);
    for corner in corners {
        ring.push(point(rt, *corner))?;
    }
    let mut rings = Vec::new(alloc);
    rings.push(ring)?;
    Ok(Area::of_rings(alloc, Text::of(alloc, "1")?, &rings)?)
}

// What the check answers to areas of one ring each.
fn checked(
    rt: &impl Abort,
    alloc: Global,
    shells: &[&[[i64; 2]]],
) -> Result<Result<Checked, CoverFault>, Fail> {
    let mut areas = Vec::new(alloc);
    for corners in shells {
        areas.push(area(rt, alloc, corners)?)?;
    }
    let coverage = Coverage::of(areas, 0, Frame::Plain).expect(rt, "too many areas or steps");
    Ok(check(alloc, coverage, &Alone))
}

// The fault of areas of one ring each.
fn fault(
    rt: &impl Abort,
    alloc: Global,
    shells: &[&[[i64; 2]]],
) -> Result<Option<CoverFault>, Fail> {
    Ok(checked(rt, alloc, shells)?.err())
}

#[test]
fn crossing_borders_are_named(rt: HostRuntime) -> Result<(), Fail> {
    let first: &[[i64; 2]] = &[[0, 0], [2, 0], [2, 2], [0, 2], [0, 0]];
    let second: &[[i64; 2]] = &[[2, 0], [4, 0], [4, 1], [2, 1], [2, 0]];
    assert_eq!(rt;
        fault(&rt, rt.alloc(), &[first, second])?,
        Some(CoverFault::Crossing {
            e: edge(&rt, [2, 0], [2, 1]),
            f: edge(&rt, [2, 0], [2, 2]),
            spot: Spot { x: 2, y: 1, m: 1 },
        })
    );
    Ok(())
}

#[test]
fn overlapping_areas_are_named(rt: HostRuntime) -> Result<(), Fail> {
    let triangle: &[[i64; 2]] = &[[1, 0], [1, 1], [0, 1], [1, 0]];
    assert_eq!(rt;
        fault(&rt, rt.alloc(), &[triangle, triangle])?,
        Some(CoverFault::Overlap {
            a: 0,
            b: 1,
            spot: Spot { x: 1, y: 1, m: 2 },
        })
    );
    assert_eq!(rt;
        fault(&rt, rt.alloc(), &[triangle, triangle, triangle])?,
        Some(CoverFault::Shared {
            edge: edge(&rt, [1, 0], [0, 1]),
        })
    );
    Ok(())
}

#[test]
fn a_crossing_at_the_end_of_a_row_is_named(rt: HostRuntime) -> Result<(), Fail> {
    let cells: [&[[i64; 2]]; 4] = [
        &[[0, 0], [1, 0], [1, 1], [0, 1]],
        &[[1, 0], [2, 0], [2, 1], [1, 1]],
        &[[2, 0], [3, 0], [3, 1], [2, 1]],
        &[[3, 0], [4, 0], [4, 1], [3, 1]],
    ];
    let roof: &[[i64; 2]] = &[[3, 1], [5, 1], [4, 3]];
    let [first, second, third, fourth] = cells;
    assert_eq!(rt;
        fault(&rt, rt.alloc(), &[first, second, third, fourth, roof])?,
        Some(CoverFault::Crossing {
            e: edge(&rt, [4, 0], [4, 1]),
            f: edge(&rt, [3, 1], [5, 1]),
            spot: Spot { x: 4, y: 1, m: 1 },
        })
    );
    Ok(())
}

#[test]
fn even_edges_take_part_in_nothing(rt: HostRuntime) -> Result<(), Fail> {
    let spiked: &[[i64; 2]] = &[[0, 0], [4, 0], [4, 4], [2, 4], [2, 6], [2, 4], [0, 4]];
    let above: &[[i64; 2]] = &[[0, 5], [4, 5], [4, 7], [0, 7]];
    let Ok(map) = checked(&rt, rt.alloc(), &[spiked, above])? else {
        return Err("a fault".into());
    };
    assert_eq!(rt; map.areas(), 2);
    assert_eq!(rt; map.odd(0).len(), 5);
    Ok(())
}

#[test]
fn the_heights_of_all_edges_count(rt: HostRuntime) -> Result<(), Fail> {
    let square: &[[i64; 2]] = &[[0, 0], [4, 0], [4, 4], [0, 4]];
    let far: &[[i64; 2]] = &[[10, 1], [12, 1], [11, 2]];
    assert_eq!(rt;
        fault(&rt, rt.alloc(), &[square, square, far])?,
        Some(CoverFault::Overlap {
            a: 0,
            b: 1,
            spot: Spot { x: 0, y: 1, m: 2 },
        })
    );
    Ok(())
}

#[test]
fn the_two_least_of_three_areas_are_named(rt: HostRuntime) -> Result<(), Fail> {
    let small: &[[i64; 2]] = &[[2, 2], [6, 2], [6, 6], [2, 6]];
    let large: &[[i64; 2]] = &[[0, 0], [8, 0], [8, 8], [0, 8]];
    assert_eq!(rt;
        fault(&rt, rt.alloc(), &[small, small, large])?,
        Some(CoverFault::Overlap {
            a: 0,
            b: 1,
            spot: Spot { x: 2, y: 4, m: 1 },
        })
    );
    Ok(())
}

#[test]
fn an_area_without_an_odd_edge_is_passed_over(rt: HostRuntime) -> Result<(), Fail> {
    let flat: &[[i64; 2]] = &[[0, 0], [3, 0], [3, 0], [0, 0]];
    let square: &[[i64; 2]] = &[[0, 0], [1, 0], [1, 1], [0, 1], [0, 0]];
    let Ok(map) = checked(&rt, rt.alloc(), &[flat, square])? else {
        return Err("a fault".into());
    };
    assert_eq!(rt; map.areas(), 1);
    assert_eq!(rt; map.passed(), 1);
    assert_eq!(rt; map.odd(0).len(), 4);
    assert_eq!(rt; map.odd(0)[0], edge(&rt, [0, 0], [1, 0]));
    assert_eq!(rt; map.class(0).as_str(), "1");
    assert!(rt; matches!(map.frame(), Frame::Plain));
    odd_law();
    one_fault_law();
    Ok(())
}

// Takes what another thread may hold.
fn is_shared<T: Send + Sync>(value: &T) {
    let _ = value;
}

#[test]
fn a_checked_map_is_shared(rt: HostRuntime) -> Result<(), Fail> {
    if let Ok(map) = checked(&rt, rt.alloc(), &[])? {
        is_shared(&map);
    }
    is_shared(&CoverFault::Memory);
    Ok(())
}

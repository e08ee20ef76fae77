ghost use Rattle.std.specs.Prelude.{◌<◌, EachIndex, IsTrue, length, slice_index};

use super::{borders, drawn_law, point_sets_law};
use agg_base::Text;
use agg_base::limits::AREAS;
use agg_model::Grouping;
use coverage_check::{Checked, check};
use crew_work::Alone;
use plane_edge::{Area, Coverage, Edge, Frame, Point};
use std::alloc::Global;
use std::process::Abort;
use std::test::Fail;

// A point within the limit.
fn point(rt: &impl Abort, [x, y]: [i64; 2]) -> Point {
    Point::of(x, y).expect(rt, "a coordinate past the limit")
}

// The edge between two points.
fn edge(rt: &impl Abort, a: [i64; 2], b: [i64; 2]) -> Edge {
    Edge::of(point(rt, a), point(rt, b)).expect(rt, "equal ends")
}

// The unit cell whose least corner is given.
fn cell(rt: &impl Abort, alloc: Global, [x, y]: [i64; 2]) -> Result<Area, Fail> {
    let right = x.saturating_add(1);
    let top = y.saturating_add(1);
    let mut ring = Vec::new(alloc);
    for corner in [[x, y], [right, y], [right, top], [x, top]] {
        ring.push(point(rt, corner))?;
    }
    let mut rings = Vec::new(alloc);
    rings.push(ring)?;
    Ok(Area::of_rings(alloc, Text::of(alloc, "1")?, &rings)?)
}

// The checked map of some unit cells, each an area.
fn cells(rt: &impl Abort, alloc: Global, corners: &[[i64; 2]]) -> Result<Checked, Fail> {
    let mut areas = Vec::new(alloc);
    for corner in corners {
        areas.push(cell(rt, alloc, *corner)?)?;
    }
    let coverage = Coverage::of(areas, 0, Frame::Plain).expect(rt, "too many areas or steps");
    match check(alloc, coverage, &Alone) {
        Ok(checked) => Ok(checked),
        Err(_) => Err(Fail::new("a fault of the coverage")),
    }
}

// Whether all regions are below the number of regions.
fn are_below(region_of: &[u32], regions: usize) -> bool
    ensures { IsTrue result → EachIndex region_of.now (λ v. slice_index region_of.now v < regions) }
{
    for region in region_of {
        if *region as usize >= regions {
            return false;
        }
    }
    true
}

// The border edges of the regions of a map.
fn regions(
    rt: &impl Abort,
    alloc: Global,
    map: &Checked,
    region_of: &[u32],
    class_of: &[u8],
) -> Result<Vec<Vec<Edge>>, Fail> {
    let grouping = Grouping {
        region_of: Vec::from_slice(alloc, region_of)?,
        class_of: Vec::from_slice(alloc, class_of)?,
    };
    let count = grouping.class_of.len();
    assert!(rt; grouping.region_of.len() == map.areas() && count <= AREAS);
    let below = are_below(&grouping.region_of, count);
    assert!(rt; below);
    Ok(borders(alloc, map, &grouping)?)
}

#[test]
fn two_cells_in_one_region(rt: HostRuntime) -> Result<(), Fail> {
    let alloc = rt.alloc();
    let map = cells(&rt, alloc, &[[0, 0], [1, 0]])?;
    let all = regions(&rt, alloc, &map, &[0, 0], &[0])?;
    assert_eq!(rt; all.len(), 1);
    assert_eq!(rt;
        all[0].as_slice(),
        [
            edge(&rt, [0, 0], [1, 0]),
            edge(&rt, [0, 0], [0, 1]),
            edge(&rt, [1, 0], [2, 0]),
            edge(&rt, [2, 0], [2, 1]),
            edge(&rt, [0, 1], [1, 1]),
            edge(&rt, [1, 1], [2, 1]),
        ]
        .as_slice()
    );
    Ok(())
}

#[test]
fn two_cells_in_two_regions(rt: HostRuntime) -> Result<(), Fail> {
    let alloc = rt.alloc();
    let map = cells(&rt, alloc, &[[0, 0], [1, 0]])?;
    let all = regions(&rt, alloc, &map, &[2, 0], &[0, 0, 1])?;
    assert_eq!(rt; all.len(), 3);
    assert_eq!(rt; all[0].len(), 4);
    assert_eq!(rt; all[1].len(), 0);
    assert_eq!(rt; all[2].len(), 4);
    let common = edge(&rt, [1, 0], [1, 1]);
    assert!(rt; all[0].contains(&common));
    assert!(rt; all[2].contains(&common));
    assert!(rt; all[0].contains(&edge(&rt, [2, 0], [2, 1])));
    assert!(rt; all[2].contains(&edge(&rt, [0, 0], [0, 1])));
    Ok(())
}

#[test]
fn a_ring_of_cells_keeps_its_hole(rt: HostRuntime) -> Result<(), Fail> {
    let alloc = rt.alloc();
    let around = [
        [0, 0],
        [1, 0],
        [2, 0],
        [0, 1],
        [2, 1],
        [0, 2],
        [1, 2],
        [2, 2],
    ];
    let map = cells(&rt, alloc, &around)?;
    let all = regions(&rt, alloc, &map, &[0; 8], &[0])?;
    assert_eq!(rt; all.len(), 1);
    assert_eq!(rt; all[0].len(), 16);
    for (a, b) in [
        ([1, 1], [2, 1]),
        ([1, 1], [1, 2]),
        ([2, 1], [2, 2]),
        ([1, 2], [2, 2]),
    ] {
        assert!(rt; all[0].contains(&edge(&rt, a, b)));
    }
    Ok(())
}

#[test]
fn cells_that_touch_at_a_corner(rt: HostRuntime) -> Result<(), Fail> {
    let alloc = rt.alloc();
    let map = cells(&rt, alloc, &[[0, 0], [1, 1]])?;
    let all = regions(&rt, alloc, &map, &[0, 0], &[0])?;
    assert_eq!(rt; all.len(), 1);
    assert_eq!(rt; all[0].len(), 8);
    point_sets_law();
    drawn_law();
    Ok(())
}

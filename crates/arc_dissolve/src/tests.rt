//! Worked values.
ghost use Rattle.std.specs.Prelude.{◌<◌, EachIndex, IsTrue, slice_index};

use super::*;
use agg_base::Text;
use agg_base::limits::AREAS;
use agg_model::Grouping;
use coverage_check::{Checked, check};
use crew_work::Alone;
use plane_edge::{Area, Coverage, Frame, Point};
use std::alloc::Global;
use std::process::Abort;
use std::test::Fail;

type Ring<'a> = &'a [[i64; 2]];

type Rings<'a> = &'a [Ring<'a>];

type Polygon<'a> = &'a [&'a [i64]];

/// The points with these coordinates, x before y.
fn path(rt: &impl Abort, alloc: Global, corners: Ring<'_>) -> Result<Vec<Point>, Fail> {
    let mut path = Vec::new(alloc);
    for [x, y] in corners {
        path.push(Point::of(*x, *y).expect(rt, "a coordinate past the limit"))?;
    }
    Ok(path)
}

/// The area of some rings.
fn area(rt: &impl Abort, alloc: Global, outlines: Rings<'_>) -> Result<Area, Fail> {
    let mut rings = Vec::new(alloc);
    for corners in outlines {
        rings.push(path(rt, alloc, corners)?)?;
    }
    Ok(Area::of_rings(alloc, Text::of(alloc, "own")?, &rings)?)
}

// The checked map of areas, each of some rings.
fn checked(rt: &impl Abort, alloc: Global, outlines: &[Rings<'_>]) -> Result<Checked, Fail> {
    let mut areas = Vec::new(alloc);
    for rings in outlines {
        areas.push(area(rt, alloc, rings)?)?;
    }
    let coverage = Coverage::of(areas, 0, Frame::Plain).expect(rt, "too many areas or steps");
    match check(alloc, coverage, &Alone) {
        Ok(checked) => Ok(checked),
        Err(_) => Err(Fail::new("a fault of the coverage")),
    }
}

/// The names of the classes 0, 1 and 2.
fn names(alloc: Global) -> Result<Vec<Text>, Fail> {
    let mut names = Vec::new(alloc);
    for name in ["lake", "wood", "moor"] {
        names.push(Text::of(alloc, name)?)?;
    }
    Ok(names)
}

/// Whether all regions are below the number of regions.
fn are_regions_below(region_of: &[u32], regions: usize) -> bool
    ensures { IsTrue result → EachIndex region_of.now (λ v. slice_index region_of.now v < regions) }
{
    for region in region_of {
        if *region as usize >= regions {
            return false;
        }
    }
    true
}

/// Whether all classes are below the number of classes.
fn are_classes_below(class_of: &[u8], classes: usize) -> bool
    ensures { IsTrue result → EachIndex class_of.now (λ r. slice_index class_of.now r < classes) }
{
    for class in class_of {
        if *class as usize >= classes {
            return false;
        }
    }
    true
}

/// The map of regions of areas.
fn drawn(
    rt: &impl Abort,
    alloc: Global,
    outlines: &[Rings<'_>],
    region_of: &[u32],
    class_of: &[u8],
) -> Result<Regions, Fail> {
    let checked = checked(rt, alloc, outlines)?;
    let grouping = Grouping {
        region_of: Vec::from_slice(alloc, region_of)?,
        class_of: Vec::from_slice(alloc, class_of)?,
    };
    let names = names(alloc)?;
    let regions = grouping.class_of.len();
    assert!(rt; grouping.region_of.len() == checked.areas() && regions <= AREAS);
    let regions_below = are_regions_below(&grouping.region_of, regions);
    assert!(rt; regions_below);
    let classes_below = are_classes_below(&grouping.class_of, names.len());
    assert!(rt; classes_below);
    Ok(dissolve(alloc, &checked, &grouping, &names)?)
}

/// Tries that the regions have these arcs.
fn has_arcs(
    rt: &impl Abort,
    alloc: Global,
    regions: &Regions,
    arcs: Rings<'_>,
) -> Result<(), Fail> {
    assert_eq!(rt; regions.arcs.len(), arcs.len());
    for (arc, want) in regions.arcs.iter().zip(arcs) {
        assert_eq!(rt; *arc, path(rt, alloc, want)?);
    }
    Ok(())
}

/// Tries that a shape has this class and these polygons.
fn is_shape(rt: &impl Abort, shape: &Shape, class: &str, polygons: &[Polygon<'_>]) {
    assert!(rt; shape.class.as_str() == class);
    assert_eq!(rt; shape.polygons.len(), polygons.len());
    for (polygon, want) in shape.polygons.iter().zip(polygons) {
        assert_eq!(rt; polygon.len(), want.len());
        for (ring, indexes) in polygon.iter().zip(*want) {
            assert!(rt; ring.as_slice() == *indexes, "{ring:?}");
        }
    }
}

const WEST: Ring<'_> = &[[0, 0], [1, 0], [1, 1], [0, 1]];

const EAST: Ring<'_> = &[[1, 0], [2, 0], [2, 1], [1, 1]];

const BEYOND: Ring<'_> = &[[1, 1], [2, 1], [2, 2], [1, 2]];

const BLOCK: Ring<'_> = &[[0, 0], [3, 0], [3, 3], [0, 3]];

const ISLAND: Ring<'_> = &[[1, 1], [2, 1], [2, 2], [1, 2]];

#[test]
fn neighbours_share_an_arc(rt: HostRuntime) -> Result<(), Fail> {
    let alloc = rt.alloc();
    let regions = drawn(&rt, alloc, &[&[WEST], &[EAST]], &[0, 1], &[1, 0])?;
    has_arcs(
        &rt,
        alloc,
        &regions,
        &[
            &[[1, 0], [0, 0], [0, 1], [1, 1]],
            &[[1, 0], [2, 0], [2, 1], [1, 1]],
            &[[1, 0], [1, 1]],
        ],
    )?;
    assert!(rt; regions.shapes.len() == 2);
    is_shape(&rt, &regions.shapes[0], "wood", &[&[&[-1, 2]]]);
    is_shape(&rt, &regions.shapes[1], "lake", &[&[&[1, -3]]]);
    Ok(())
}

#[test]
fn inner_borders_vanish(rt: HostRuntime) -> Result<(), Fail> {
    let alloc = rt.alloc();
    let regions = drawn(&rt, alloc, &[&[WEST], &[EAST]], &[0, 0], &[2])?;
    has_arcs(
        &rt,
        alloc,
        &regions,
        &[&[[0, 0], [1, 0], [2, 0], [2, 1], [1, 1], [0, 1], [0, 0]]],
    )?;
    assert!(rt; regions.shapes.len() == 1);
    is_shape(&rt, &regions.shapes[0], "moor", &[&[&[0]]]);
    Ok(())
}

const AROUND: [Ring<'_>; 2] = [
    &[[0, 0], [3, 0], [3, 3], [0, 3], [0, 0]],
    &[[1, 1], [2, 1], [2, 2], [1, 2], [1, 1]],
];

#[test]
fn holes_stand_with_their_shells(rt: HostRuntime) -> Result<(), Fail> {
    let alloc = rt.alloc();
    let regions = drawn(&rt, alloc, &[&[BLOCK, ISLAND]], &[0], &[1])?;
    has_arcs(&rt, alloc, &regions, &AROUND)?;
    assert!(rt; regions.shapes.len() == 1);
    is_shape(&rt, &regions.shapes[0], "wood", &[&[&[0], &[-2]]]);
    let regions = drawn(&rt, alloc, &[&[ISLAND], &[BLOCK, ISLAND]], &[1, 0], &[0, 2])?;
    has_arcs(&rt, alloc, &regions, &AROUND)?;
    assert!(rt; regions.shapes.len() == 2);
    is_shape(&rt, &regions.shapes[0], "lake", &[&[&[0], &[-2]]]);
    is_shape(&rt, &regions.shapes[1], "moor", &[&[&[1]]]);
    Ok(())
}

/// A block with a hole, in which a smaller block with a hole lies, beside a third block with a hole: each hole stands with the least block that it is in.
#[test]
fn holes_stand_with_the_least_shell(rt: HostRuntime) -> Result<(), Fail> {
    let alloc = rt.alloc();
    let rings: Rings<'_> = &[
        &[[0, 0], [9, 0], [9, 9], [0, 9]],
        &[[1, 1], [8, 1], [8, 8], [1, 8]],
        &[[2, 2], [7, 2], [7, 7], [2, 7]],
        &[[3, 3], [6, 3], [6, 6], [3, 6]],
        &[[10, 0], [13, 0], [13, 3], [10, 3]],
        &[[11, 1], [12, 1], [12, 2], [11, 2]],
    ];
    let regions = drawn(&rt, alloc, &[rings], &[0], &[1])?;
    assert!(rt; regions.shapes.len() == 1);
    is_shape(
        &rt,
        &regions.shapes[0],
        "wood",
        &[&[&[0], &[-3]], &[&[1], &[-4]], &[&[4], &[-6]]],
    );
    Ok(())
}

#[test]
fn shapes_may_touch_at_points(rt: HostRuntime) -> Result<(), Fail> {
    let alloc = rt.alloc();
    let regions = drawn(&rt, alloc, &[&[WEST], &[BEYOND]], &[0, 1], &[1, 1])?;
    has_arcs(
        &rt,
        alloc,
        &regions,
        &[
            &[[1, 1], [1, 0], [0, 0], [0, 1], [1, 1]],
            &[[1, 1], [2, 1], [2, 2], [1, 2], [1, 1]],
        ],
    )?;
    assert!(rt; regions.shapes.len() == 2);
    is_shape(&rt, &regions.shapes[0], "wood", &[&[&[-1]]]);
    is_shape(&rt, &regions.shapes[1], "wood", &[&[&[1]]]);
    Ok(())
}

#[test]
fn one_area_may_have_two_shells(rt: HostRuntime) -> Result<(), Fail> {
    let alloc = rt.alloc();
    let rings: Rings<'_> = &[&[[0, 0], [2, 1], [1, 2]], &[[0, 0], [-1, 2], [-2, 3]]];
    let regions = drawn(&rt, alloc, &[rings], &[0], &[1])?;
    has_arcs(
        &rt,
        alloc,
        &regions,
        &[
            &[[0, 0], [2, 1], [1, 2], [0, 0]],
            &[[0, 0], [-1, 2], [-2, 3], [0, 0]],
        ],
    )?;
    assert!(rt; regions.shapes.len() == 1);
    is_shape(&rt, &regions.shapes[0], "wood", &[&[&[0]], &[&[1]]]);
    Ok(())
}

/// Tries that one area is drawn as these polygons.
fn draws(
    rt: &impl Abort,
    alloc: Global,
    area: &[Rings<'_>],
    polygons: &[Polygon<'_>],
) -> Result<(), Fail> {
    let regions = drawn(rt, alloc, area, &[0], &[1])?;
    assert!(rt; regions.shapes.len() == 1);
    is_shape(rt, &regions.shapes[0], "wood", polygons);
    Ok(())
}

/// Two blocks that touch at the corners of a notch, which is on the right of one of them or on its top: no hole is drawn.
#[test]
fn shells_that_touch_twice_stay_apart(rt: HostRuntime) -> Result<(), Fail> {
    let alloc = rt.alloc();
    let bent: Rings<'_> = &[
        &[
            [0, 0],
            [2, 0],
            [2, 1],
            [1, 1],
            [1, 2],
            [2, 2],
            [2, 3],
            [0, 3],
        ],
        &[[2, 1], [3, 1], [3, 2], [2, 2]],
    ];
    draws(&rt, alloc, &[bent], &[&[&[-1, 1]], &[&[2, -4]]])?;
    let tub: Rings<'_> = &[
        &[
            [0, 0],
            [3, 0],
            [3, 2],
            [2, 2],
            [2, 1],
            [1, 1],
            [1, 2],
            [0, 2],
        ],
        &[[1, 2], [2, 2], [2, 3], [1, 3]],
    ];
    draws(&rt, alloc, &[tub], &[&[&[-1, 1]], &[&[2, -4]]])
}

const FAR: Ring<'_> = &[[5, 0], [6, 0], [6, 1], [5, 1]];

/// The walk draws the western block first, and its arc comes second: it begins where the blocks touch.
#[test]
fn polygons_are_in_the_order_of_their_arcs(rt: HostRuntime) -> Result<(), Fail> {
    let alloc = rt.alloc();
    let regions = drawn(&rt, alloc, &[&[WEST, FAR], &[BEYOND]], &[0, 1], &[1, 0])?;
    has_arcs(
        &rt,
        alloc,
        &regions,
        &[
            &[[5, 0], [6, 0], [6, 1], [5, 1], [5, 0]],
            &[[1, 1], [1, 0], [0, 0], [0, 1], [1, 1]],
            &[[1, 1], [2, 1], [2, 2], [1, 2], [1, 1]],
        ],
    )?;
    assert!(rt; regions.shapes.len() == 2);
    is_shape(&rt, &regions.shapes[0], "wood", &[&[&[0]], &[&[-2]]]);
    is_shape(&rt, &regions.shapes[1], "lake", &[&[&[2]]]);
    Ok(())
}

/// The walk comes round the upper hole first, and its arc comes last.
#[test]
fn holes_are_in_the_order_of_their_arcs(rt: HostRuntime) -> Result<(), Fail> {
    let alloc = rt.alloc();
    let regions = drawn(
        &rt,
        alloc,
        &[&[
            &[[0, 0], [4, 0], [4, 4], [0, 4]],
            &[[1, 1], [2, 1], [2, 2], [1, 2]],
            &[[2, 2], [3, 2], [3, 3], [2, 3]],
        ]],
        &[0],
        &[1],
    )?;
    has_arcs(
        &rt,
        alloc,
        &regions,
        &[
            &[[0, 0], [4, 0], [4, 4], [0, 4], [0, 0]],
            &[[2, 2], [2, 1], [1, 1], [1, 2], [2, 2]],
            &[[2, 2], [3, 2], [3, 3], [2, 3], [2, 2]],
        ],
    )?;
    assert!(rt; regions.shapes.len() == 1);
    is_shape(&rt, &regions.shapes[0], "wood", &[&[&[0], &[1], &[-3]]]);
    Ok(())
}

/// A block with a hole that another region fills, and in a hole of that an island of the first region.
#[test]
fn an_island_in_a_hole_is_a_polygon(rt: HostRuntime) -> Result<(), Fail> {
    let alloc = rt.alloc();
    let wide: Ring<'_> = &[[0, 0], [7, 0], [7, 7], [0, 7]];
    let middle: Ring<'_> = &[[1, 1], [6, 1], [6, 6], [1, 6]];
    let island: Ring<'_> = &[[2, 2], [5, 2], [5, 5], [2, 5]];
    let regions = drawn(
        &rt,
        alloc,
        &[&[wide, middle], &[middle, island], &[island]],
        &[0, 1, 0],
        &[1, 0],
    )?;
    has_arcs(
        &rt,
        alloc,
        &regions,
        &[
            &[[0, 0], [7, 0], [7, 7], [0, 7], [0, 0]],
            &[[1, 1], [6, 1], [6, 6], [1, 6], [1, 1]],
            &[[2, 2], [5, 2], [5, 5], [2, 5], [2, 2]],
        ],
    )?;
    assert!(rt; regions.shapes.len() == 2);
    is_shape(&rt, &regions.shapes[0], "wood", &[&[&[0], &[-2]], &[&[2]]]);
    is_shape(&rt, &regions.shapes[1], "lake", &[&[&[1], &[-3]]]);
    Ok(())
}

#[test]
fn what_has_no_area_has_no_polygons(rt: HostRuntime) -> Result<(), Fail> {
    let alloc = rt.alloc();
    let regions = drawn(&rt, alloc, &[], &[], &[])?;
    has_arcs(&rt, alloc, &regions, &[])?;
    assert!(rt; regions.shapes.is_empty());
    let regions = drawn(&rt, alloc, &[&[WEST]], &[1], &[0, 2])?;
    has_arcs(
        &rt,
        alloc,
        &regions,
        &[&[[0, 0], [1, 0], [1, 1], [0, 1], [0, 0]]],
    )?;
    assert!(rt; regions.shapes.len() == 2);
    is_shape(&rt, &regions.shapes[0], "lake", &[]);
    is_shape(&rt, &regions.shapes[1], "moor", &[&[&[0]]]);
    Ok(())
}

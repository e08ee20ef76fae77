// Worked values.
ghost use Rattle.std.specs.Prelude.{◌≤◌, length, IfOk};
ghost use Rattle.plane_edge.specs.Edges.{HaveEvenEnds, IsRisingEdges};

use super::*;
use agg_base::limits::STEPS;
use plane_edge::{Edge, Point, odd_of, steps_of_rings};
use std::alloc::Global;
use std::process::Abort;
use std::test::Fail;

// The ring of some points.
fn ring(rt: &impl Abort, alloc: Global, places: &[[i64; 2]]) -> Result<Vec<Point>, Fail> {
    let mut ring = Vec::new(alloc);
    for [x, y] in places {
        ring.push(Point::of(*x, *y).expect(rt, "a coordinate past the limit"))?;
    }
    Ok(ring)
}

// The edges of rings, in rising order.
fn edges_of(rt: &impl Abort, alloc: Global, rings: &[Vec<Point>]) -> Result<Vec<Edge>, Fail>
    ensures rising { IfOk result (λ edges. IsRisingEdges edges.items) }
    ensures even { IfOk result (λ edges. HaveEvenEnds edges.items) }
    ensures few { IfOk result (λ edges. length edges.items ≤ STEPS) }
{
    let edges = odd_of(alloc, steps_of_rings(alloc, rings)?)?;
    assert!(rt; edges.len() <= STEPS);
    Ok(edges)
}

// Tries that the edges of these rings are drawn as these rings, in their order.
fn draws(rt: &impl Abort, alloc: Global, rings: &[Vec<Point>]) -> Result<(), Fail> {
    let edges = edges_of(rt, alloc, rings)?;
    let drawn = rings_of(alloc, &edges)?;
    assert_eq!(rt; drawn.len(), rings.len());
    for (ring, want) in drawn.iter().zip(rings) {
        assert!(rt; ring.as_slice() == want.as_slice(), "{ring:?}");
    }
    Ok(())
}

// Tries that the edges of two rings are drawn as these rings, in their order.
fn draws_both(
    rt: &impl Abort,
    alloc: Global,
    one: &[[i64; 2]],
    other: &[[i64; 2]],
) -> Result<(), Fail> {
    let mut rings = Vec::new(alloc);
    rings.push(ring(rt, alloc, one)?)?;
    rings.push(ring(rt, alloc, other)?)?;
    draws(rt, alloc, &rings)
}

const SQUARE: [[i64; 2]; 4] = [[0, 0], [1, 0], [1, 1], [0, 1]];

const BEYOND: [[i64; 2]; 4] = [[1, 1], [2, 1], [2, 2], [1, 2]];

const BLOCK: [[i64; 2]; 4] = [[0, 0], [3, 0], [3, 3], [0, 3]];

const HOLE: [[i64; 2]; 4] = [[2, 1], [1, 1], [1, 2], [2, 2]];

// Round these triangles the sums of `x1 * y2 - x2 * y1` are 3 and 1, so both have their insides on the left.
const RIGHT: [[i64; 2]; 3] = [[0, 0], [2, 1], [1, 2]];

const LEFT: [[i64; 2]; 3] = [[0, 0], [-1, 2], [-2, 3]];

// A block with a notch on its right, and a block that closes the notch: they touch at both its corners.
const BENT: [[i64; 2]; 8] = [
    [0, 0],
    [2, 0],
    [2, 1],
    [1, 1],
    [1, 2],
    [2, 2],
    [2, 3],
    [0, 3],
];

const BESIDE: [[i64; 2]; 4] = [[2, 1], [3, 1], [3, 2], [2, 2]];

// A block with a notch on its top, and a block that closes the notch: they touch at both its corners.
const TUB: [[i64; 2]; 8] = [
    [0, 0],
    [3, 0],
    [3, 2],
    [2, 2],
    [2, 1],
    [1, 1],
    [1, 2],
    [0, 2],
];

const ABOVE: [[i64; 2]; 4] = [[1, 2], [2, 2], [2, 3], [1, 3]];

#[test]
fn the_region_is_on_the_left(rt: HostRuntime) -> Result<(), Fail> {
    let alloc = rt.alloc();
    let mut rings = Vec::new(alloc);
    draws(&rt, alloc, &rings)?;
    rings.push(ring(&rt, alloc, &SQUARE)?)?;
    draws(&rt, alloc, &rings)?;
    draws_both(&rt, alloc, &BLOCK, &HOLE)
}

#[test]
fn rings_part_where_they_touch(rt: HostRuntime) -> Result<(), Fail> {
    let alloc = rt.alloc();
    draws_both(&rt, alloc, &SQUARE, &BEYOND)?;
    draws_both(&rt, alloc, &RIGHT, &LEFT)
}

// A turn the other way would draw one ring round both blocks, and one round the notch.
#[test]
fn rings_that_touch_twice_stay_apart(rt: HostRuntime) -> Result<(), Fail> {
    let alloc = rt.alloc();
    draws_both(&rt, alloc, &BENT, &BESIDE)?;
    draws_both(&rt, alloc, &TUB, &ABOVE)
}

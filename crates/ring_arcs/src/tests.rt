// Worked values.
ghost use Rattle.std.specs.Prelude.{◌≡◌, ◌<◌, ℕ, false, IsTrue, length, get_or, All};
ghost use Rattle.plane_edge.specs.Edges.{is_same_point};
ghost use Rattle.plane_edge.specs.declared.point.Point.{Point};
ghost use Rattle.plane_edge.specs.Rings.{IsRing};

use super::*;
use crate::turning::is_same;
use plane_edge::Point;
use std::alloc::Global;
use std::process::Abort;
use std::test::Fail;

// The points with these coordinates, x before y.
fn path(rt: &impl Abort, alloc: Global, points: &[[i64; 2]]) -> Result<Vec<Point>, Fail> {
    let mut path = Vec::new(alloc);
    for point in points {
        let [x, y] = *point;
        path.push(Point::of(x, y).expect(rt, "a coordinate past the limit"))?;
    }
    Ok(path)
}

// Whether no later point is the one at that place.
fn is_apart(ring: &[Point], at: usize) -> bool
    requires { at < length ring.now }
    ensures { IsTrue result → (j : ℕ) (d : Point) → at < j → j < length ring.now → is_same_point (get_or ring.now at d) (get_or ring.now j d) ≡ false }
{
    for later in at + 1..ring.len() {
        if is_same(&ring[at], &ring[later]) {
            return false;
        }
    }
    true
}

// Whether the points are a ring.
fn is_ring(ring: &[Point]) -> bool
    ensures { IsTrue result → IsRing ring.now }
{
    for at in 0..ring.len() {
        if !is_apart(ring, at) {
            return false;
        }
    }
    ring.len() >= 3
}

// Whether all are rings.
fn are_rings(rings: &[Vec<Point>]) -> bool
    ensures { IsTrue result → All (λ ring. IsRing ring.items) rings.now }
{
    for ring in rings {
        if !is_ring(ring) {
            return false;
        }
    }
    true
}

// Compares the arcs and the indexes of the rings with those that are wanted.
fn expect(
    rt: &impl Abort,
    alloc: Global,
    rings: &[&[[i64; 2]]],
    arcs: &[&[[i64; 2]]],
    indexes: &[&[i64]],
) -> Result<(), Fail> {
    let mut all = Vec::new(alloc);
    for ring in rings {
        all.push(path(rt, alloc, ring)?)?;
    }
    assert!(rt; are_rings(&all), "points that are no ring");
    let found = arcs_of(alloc, &all)?;
    assert_eq!(rt; found.arcs.len(), arcs.len());
    for (arc, want) in found.arcs.iter().zip(arcs) {
        assert_eq!(rt; *arc, path(rt, alloc, want)?);
    }
    assert_eq!(rt; found.rings.len(), indexes.len());
    for (ring, want) in found.rings.iter().zip(indexes) {
        assert_eq!(rt; ring.as_slice(), *want);
    }
    Ok(())
}

#[test]
fn no_rings_have_no_arcs(rt: HostRuntime) -> Result<(), Fail> {
    let alloc = rt.alloc();
    expect(&rt, alloc, &[], &[], &[])
}

#[test]
fn a_ring_without_nodes_is_one_arc(rt: HostRuntime) -> Result<(), Fail> {
    let alloc = rt.alloc();
    let arc = [
        [0, 0],
        [1, 0],
        [2, 0],
        [3, 0],
        [3, 1],
        [2, 1],
        [1, 1],
        [0, 1],
        [0, 0],
    ];
    // from the least point, first to the lesser of the two next points, whichever way the ring goes
    expect(&rt, alloc, &[&arc[..8]], &[&arc], &[&[0]])?;
    let turned = [
        [2, 1],
        [3, 1],
        [3, 0],
        [2, 0],
        [1, 0],
        [0, 0],
        [0, 1],
        [1, 1],
    ];
    expect(&rt, alloc, &[&turned], &[&arc], &[&[-1]])
}

#[test]
fn a_border_is_stored_once(rt: HostRuntime) -> Result<(), Fail> {
    let alloc = rt.alloc();
    // two squares side by side
    expect(
        &rt,
        alloc,
        &[
            &[[0, 0], [1, 0], [1, 1], [0, 1]],
            &[[1, 0], [2, 0], [2, 1], [1, 1]],
        ],
        &[
            &[[1, 0], [0, 0], [0, 1], [1, 1]],
            &[[1, 0], [2, 0], [2, 1], [1, 1]],
            &[[1, 0], [1, 1]],
        ],
        &[&[-1, 2], &[1, -3]],
    )?;
    // a square with a hole, and an island that fills it
    expect(
        &rt,
        alloc,
        &[
            &[[0, 0], [4, 0], [4, 4], [0, 4]],
            &[[1, 1], [1, 2], [2, 2], [2, 1]],
            &[[1, 1], [2, 1], [2, 2], [1, 2]],
        ],
        &[
            &[[0, 0], [4, 0], [4, 4], [0, 4], [0, 0]],
            &[[1, 1], [2, 1], [2, 2], [1, 2], [1, 1]],
        ],
        &[&[0], &[-2], &[1]],
    )
}

#[test]
fn rings_that_touch_are_cut_there(rt: HostRuntime) -> Result<(), Fail> {
    let alloc = rt.alloc();
    // two squares with one point in common
    expect(
        &rt,
        alloc,
        &[
            &[[0, 0], [1, 0], [1, 1], [0, 1]],
            &[[1, 1], [2, 1], [2, 2], [1, 2]],
        ],
        &[
            &[[1, 1], [1, 0], [0, 0], [0, 1], [1, 1]],
            &[[1, 1], [2, 1], [2, 2], [1, 2], [1, 1]],
        ],
        &[&[-1], &[1]],
    )?;
    // three regions of a square: below, and above to the left and to the right
    expect(
        &rt,
        alloc,
        &[
            &[[0, 0], [2, 0], [2, 1], [1, 1], [0, 1]],
            &[[0, 1], [1, 1], [1, 2], [0, 2]],
            &[[1, 1], [2, 1], [2, 2], [1, 2]],
        ],
        &[
            &[[0, 1], [0, 0], [2, 0], [2, 1]],
            &[[0, 1], [1, 1]],
            &[[0, 1], [0, 2], [1, 2]],
            &[[1, 1], [2, 1]],
            &[[1, 1], [1, 2]],
            &[[2, 1], [2, 2], [1, 2]],
        ],
        &[&[0, -4, -2], &[1, 4, -3], &[3, 5, -5]],
    )
}

// Where a ring without nodes is cut.
ghost use Rattle.std.specs.Prelude.{◌≡◌, ◌<◌, false, IsTrue, length, All, Any, Contains, IfNone, IfSome, IfOk};
ghost use Rattle.std.specs.List.Sorted.{IsSorted};
ghost use Rattle.plane_edge.specs.Order.{is_below};
ghost use Rattle.ring_arcs.specs.Breaks.{is_node, lesser, IsBroken};
ghost use Rattle.ring_arcs.specs.Ways.{point_order, way_order};

use crate::nodes::is_node;
use agg_base::NoMemory;
use plane_edge::Point;
use std::alloc::Global;

// The lesser of the two points.
fn lesser(one: Point, other: Point) -> Point
    ensures { result ≡ lesser one other }
{
    if other < one { other } else { one }
}

// The least point of a ring without nodes.
fn least_of_loop(ways: &[(Point, Point)], ring: &[Point]) -> Option<Point>
    requires sorted { IsSorted way_order ways.now }
    requires some { 0 < length ring.now }
    ensures node { IfNone result (Any (λ p. IsTrue (is_node ways.now p)) ring.now) }
    ensures no_node { IfSome result (λ p. All (λ q. is_node ways.now q ≡ false) ring.now) }
    ensures inside { IfSome result (λ p. Contains ring.now p) }
    ensures least { IfSome result (λ p. All (λ q. is_below q p ≡ false) ring.now) }
{
    let mut least = ring[0];
    for point in ring {
        if is_node(ways, point) {
            return None;
        }
        least = lesser(least, *point);
    }
    Some(least)
}

/// The least points of the rings without nodes, in order.
pub fn loops_of(
    alloc: Global,
    ways: &[(Point, Point)],
    rings: &[Vec<Point>],
) -> Result<Vec<Point>, NoMemory>
    requires sorted { IsSorted way_order ways.now }
    requires some { All (λ ring. 0 < length ring.items) rings.now }
    ensures sorted { IfOk result (λ loops. IsSorted point_order loops.items) }
    ensures broken { IfOk result (λ loops. All (λ ring. IsBroken ways.now loops.items ring.items) rings.now) }
{
    let mut loops = Vec::new(alloc);
    for ring in rings {
        if let Some(least) = least_of_loop(ways, ring) {
            loops.push(least)?;
        }
    }
    loops.sort_unstable();
    Ok(loops)
}

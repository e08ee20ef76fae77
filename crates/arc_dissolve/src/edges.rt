// The least edge of a ring.
ghost use Rattle.std.specs.Prelude.{◌≡◌, ◌<◌, length, IfOk};
ghost use Rattle.plane_edge.specs.Plane.{IsBounded};
ghost use Rattle.plane_edge.specs.Rings.{steps_of_ring};
ghost use Rattle.arc_dissolve.specs.Holes.{lesser_edge, IsLeastOf, IsMiddleOf};

use agg_base::NoMemory;
use plane_edge::{Edge, Point, Spot, steps_of_ring};
use std::alloc::Global;

// The lesser of two edges.
fn lesser(one: Edge, other: Edge) -> Edge
    ensures { result ≡ lesser_edge one other }
{
    if other < one { other } else { one }
}

// The least edge.
fn least_of(edges: &[Edge]) -> Edge
    requires { 0 < length edges.now }
    ensures { IsLeastOf edges.now result }
{
    let mut least = edges[0];
    for edge in edges {
        least = lesser(least, *edge);
    }
    least
}

/// The middle of the ring's least edge.
pub fn middle_of_least(alloc: Global, ring: &[Point]) -> Result<Spot, NoMemory>
    requires { 0 < length (steps_of_ring ring.now) }
    ensures value { IfOk result (λ spot. IsMiddleOf ring.now spot) }
    ensures bounded { IfOk result (λ spot. IsBounded spot) }
{
    let steps = steps_of_ring(alloc, ring)?;
    Ok(least_of(&steps).middle())
}

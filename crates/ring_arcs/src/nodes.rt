// Nodes: points where the number of border edges is not two.
ghost use Rattle.std.specs.Prelude.{◌≡◌, not, count_by};
ghost use Rattle.std.specs.List.Sorted.{IsSorted};
ghost use Rattle.plane_edge.specs.Order.{is_below};
ghost use Rattle.ring_arcs.specs.Breaks.{is_node};
ghost use Rattle.ring_arcs.specs.Ways.{way_order};

use plane_edge::Point;

// How many ways leave lesser points.
fn ways_before(ways: &[(Point, Point)], point: &Point) -> usize
    requires { IsSorted way_order ways.now }
    ensures { result ≡ count_by (λ w. is_below w.0 point.now) ways.now }
{
    ways.partition_point(|way| way.0 < *point)
}

// How many ways leave the point or lesser ones.
fn ways_up_to(ways: &[(Point, Point)], point: &Point) -> usize
    requires { IsSorted way_order ways.now }
    ensures { result ≡ count_by (λ w. not (is_below point.now w.0)) ways.now }
{
    ways.partition_point(|way| way.0 <= *point)
}

/// Whether the point is a node. The ways are sorted, each border edge from either end.
pub fn is_node(ways: &[(Point, Point)], point: &Point) -> bool
    requires { IsSorted way_order ways.now }
    ensures { result ≡ is_node ways.now point.now }
{
    ways_up_to(ways, point) - ways_before(ways, point) != 2
}

// Which way a chain is stored.
ghost use Rattle.std.specs.Prelude.{◌≡◌, ◌≤◌, length};
ghost use Rattle.plane_edge.specs.Edges.{is_same_point};
ghost use Rattle.plane_edge.specs.Order.{is_below};
ghost use Rattle.plane_edge.specs.declared.point.Point.{Point};
ghost use Rattle.ring_arcs.specs.Turning.{is_backward, arc_of};

use plane_edge::Point;

/// Whether the points are the same.
pub fn is_same(one: &Point, other: &Point) -> bool
    ensures { result ≡ is_same_point one.now other.now }
{
    one == other
}

// Whether the first point is the lesser one.
fn is_less(one: &Point, other: &Point) -> bool
    ensures { result ≡ is_below one.now other.now }
{
    one < other
}

/// Whether the chain ends at a lesser point than it begins at, or ends where it begins and comes
/// there from a lesser point than it goes to.
pub fn is_backward(chain: &[Point]) -> bool
    requires { 2 ≤ length chain.now }
    ensures { (d : Point) → result ≡ is_backward d chain.now }
{
    let count = chain.len();
    if is_same(&chain[0], &chain[count - 1]) {
        is_less(&chain[count - 2], &chain[1])
    } else {
        is_less(&chain[count - 1], &chain[0])
    }
}

/// The chain as it is stored: from its lesser end; where both ends are one point, first to the
/// lesser of the two next points.
pub fn arc_of(chain: Vec<Point>) -> Vec<Point>
    requires { 2 ≤ length chain.items }
    ensures { result.items ≡ arc_of chain.items }
{
    let backward = is_backward(&chain);
    let mut arc = chain;
    if backward {
        arc.reverse();
    }
    arc
}

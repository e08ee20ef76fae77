// Points and edges from numbers and points.
ghost use Rattle.std.specs.Prelude.{◌≡◌, ◌≢◌, ◌↔◌, IsSome, IfSome, IfNone};
ghost use Rattle.plane_edge.specs.Coordinate.{IsCoordinate};
ghost use Rattle.plane_edge.specs.Rings.{ends_of, in_order};

use crate::edge::Edge;
use crate::point::Point;
use agg_base::limits::COORDINATE;

// A number that is a coordinate.
fn coordinate(value: i64) -> Option<i32>
    ensures value { IfSome result (λ z. z ≡ value) }
    ensures within { IfSome result (λ z. IsCoordinate z) }
    ensures beyond { IfNone result (¬ IsCoordinate value) }
{
    if value < -COORDINATE || value > COORDINATE {
        return None;
    }
    Some(value as i32)
}

impl Point {
    /// The point with these coordinates; `None` exactly where one is further than 2^30 from 0.
    pub fn of(x: i64, y: i64) -> Option<Point>
        ensures value { IfSome result (λ p. (p.x ≡ x) × (p.y ≡ y)) }
        ensures within { IfSome result (λ p. IsCoordinate x × IsCoordinate y) }
        ensures beyond { IfNone result (¬ (IsCoordinate x × IsCoordinate y)) }
    {
        let x = coordinate(x)?;
        let y = coordinate(y)?;
        Some(Point { y, x })
    }
}

impl Edge {
    /// The edge between two points; `None` exactly where they are equal.
    pub fn of(a: Point, b: Point) -> Option<Edge>
        ensures ends { IfSome result (λ e. ends_of e ≡ in_order a b) }
        ensures differ { IfSome result (λ e. a ≢ b) }
        ensures equal { IfNone result (a ≡ b) }
    {
        if a < b {
            Some(Edge { low: a, high: b })
        } else if b < a {
            Some(Edge { low: b, high: a })
        } else {
            None
        }
    }
}

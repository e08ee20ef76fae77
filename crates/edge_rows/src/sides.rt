// Which of two edges is further left at a height.
ghost use Rattle.std.specs.Prelude.{◌≡◌, ◌≤◌, ◌^◌, ◌*ℤ◌, pos, unsigned_abs, int_lt};
ghost use Rattle.std.specs.Ordering.{is_lt};
ghost use Rattle.plane_edge.specs.Coordinate.{IsCoordinate};
ghost use Rattle.plane_strip.specs.Strip.{place, lead};

use plane_edge::{Edge, gap, minor};
use std::cmp::Ordering;

// The coordinate as a wide number.
fn wide(coordinate: i32) -> i128
    requires { IsCoordinate coordinate }
    ensures value { result ≡ coordinate }
    ensures within { unsigned_abs result ≤ 2 ^ 31 }
{
    i128::from(coordinate)
}

// Where the edge is at a height, times its rise.
fn place_at(edge: &Edge, height: i32) -> i128
    requires { IsCoordinate height }
    ensures value { result ≡ place edge.now height (pos 1) }
    ensures within { unsigned_abs result ≤ 2 ^ 63 }
{
    let rise = gap(edge.high.y, edge.low.y);
    let run = gap(edge.high.x, edge.low.x);
    minor(wide(edge.low.x), rise, run, gap(edge.low.y, height))
}

// A place times a rise.
fn product(place: i128, rise: i128) -> i128
    requires place_within { unsigned_abs place ≤ 2 ^ 63 }
    requires rise_within { unsigned_abs rise ≤ 2 ^ 31 }
    ensures { result ≡ place *ℤ rise }
{
    place * rise
}

/// Which of two edges passes the height further left.
pub fn compare_at(e: &Edge, f: &Edge, height: i32) -> Ordering
    requires { IsCoordinate height }
    ensures { is_lt result ≡ int_lt (pos 0) (lead f.now e.now height (pos 1)) }
{
    let left = product(place_at(e, height), gap(f.high.y, f.low.y));
    let right = product(place_at(f, height), gap(e.high.y, e.low.y));
    left.cmp(&right)
}

/// Whether the second edge passes the height further left than the first.
pub fn is_back_at(e: &Edge, f: &Edge, height: i32) -> bool
    requires { IsCoordinate height }
    ensures { result ≡ int_lt (pos 0) (lead e.now f.now height (pos 1)) }
{
    compare_at(f, e, height).is_lt()
}

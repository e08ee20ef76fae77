// Where a spot lies against edges.
ghost use Rattle.std.specs.Prelude.{◌≡◌, ◌↔◌, ◌&&◌, IsTrue, pos};
ghost use Rattle.std.specs.Int.{int_min, int_max};
ghost use Rattle.std.specs.Ordering.{int_eq};
ghost use Rattle.plane_edge.specs.Plane.{On, is_on, is_along_of, is_across_of, is_crossed, is_passed_by, is_within_of, side_of, IsBounded, IsInside};

use crate::edge::Edge;
use crate::spot::Spot;
use crate::wide::{difference, gap, scale, sum_of_products};

// On which side of the edge's line the spot lies.
fn side(edge: &Edge, spot: &Spot) -> i128
    requires { IsBounded spot.now }
    ensures { result ≡ side_of edge.now spot.now }
{
    let rise = gap(edge.high.y, edge.low.y);
    let run = gap(edge.high.x, edge.low.x);
    let left = difference(scale(edge.low.x, spot.m), spot.x);
    let up = difference(spot.y, scale(edge.low.y, spot.m));
    sum_of_products(left, rise, run, up)
}

/// Whether the spot lies on the edge, its ends included.
#[tactic(auto, using(crate::proofs::OnLemmas::on_test))]
pub fn on(edge: &Edge, spot: &Spot) -> bool
    requires { IsBounded spot.now }
    ensures { IsTrue result ↔ On edge.now spot.now }
{
    is_on(edge, spot)
}

// The test of `on`.
fn is_on(edge: &Edge, spot: &Spot) -> bool
    requires { IsBounded spot.now }
    ensures { result ≡ is_on edge.now spot.now }
{
    let side = side(edge, spot);
    let is_along = is_along(edge, spot);
    let is_across = is_across(edge, spot);
    is_met(side, is_along, is_across)
}

// Whether the spot's height is one of the edge.
fn is_along(edge: &Edge, spot: &Spot) -> bool
    requires { IsBounded spot.now }
    ensures { result ≡ is_along_of edge.now spot.now }
{
    let low = scale(edge.low.y, spot.m);
    let high = scale(edge.high.y, spot.m);
    is_within(low, spot.y, high)
}

// Whether the spot's place along x is one of the edge.
fn is_across(edge: &Edge, spot: &Spot) -> bool
    requires { IsBounded spot.now }
    ensures { result ≡ is_across_of edge.now spot.now }
{
    let low = scale(edge.low.x, spot.m);
    let high = scale(edge.high.x, spot.m);
    is_between(low, spot.x, high)
}

// Whether `value` is between `a` and `b`, in either order.
fn is_between(a: i128, value: i128, b: i128) -> bool
    ensures { result ≡ is_within_of (int_min a b) value (int_max a b) }
{
    let least = a.min(b);
    let most = a.max(b);
    is_within(least, value, most)
}

// Whether `side` is 0 and both tests hold.
fn is_met(side: i128, is_along: bool, is_across: bool) -> bool
    ensures { result ≡ (int_eq side (pos 0) && is_along) && is_across }
{
    side == 0 && is_along && is_across
}

// Whether `y` is at `low` or above and below `high`, and `side` above 0.
fn is_passed(low: i128, y: i128, high: i128, side: i128) -> bool
    ensures { result ≡ is_passed_by low y high side }
{
    low <= y && y < high && side > 0
}

// Whether `value` is from `low` to `high`.
fn is_within(low: i128, value: i128, high: i128) -> bool
    ensures { result ≡ is_within_of low value high }
{
    low <= value && value <= high
}

/// Whether the ray from the spot to the right crosses the edge. The edge's high end does not count, and a level edge is never crossed.
pub fn is_crossed(edge: &Edge, spot: &Spot) -> bool
    requires { IsBounded spot.now }
    ensures { result ≡ is_crossed edge.now spot.now }
{
    let low = scale(edge.low.y, spot.m);
    let high = scale(edge.high.y, spot.m);
    let side = side(edge, spot);
    is_passed(low, spot.y, high, side)
}

/// Whether the spot is inside the edges by the even-odd rule: the ray from it to the right crosses an
/// odd number of them. An edge's high end does not count, and a level edge is never crossed.
pub fn inside(edges: &[Edge], spot: &Spot) -> bool
    requires { IsBounded spot.now }
    ensures { IsTrue result ↔ IsInside edges.now spot.now }
{
    edges.iter().filter(|edge| is_crossed(edge, spot)).count() % 2 == 1
}
